// The constants of `relief_fan_group_trace`: pressure in pascal, speeds from 0 to 1, times in seconds. specs/Constants.antt holds each against its decimal.

// The building static pressure setpoint.
pub const DP_BUI_SET: f64 = 12.0;

// The minimum relief fan speed: the pressure loop below it asks for a fan less.
pub const REL_FAN_SPEED_MIN: f64 = 0.1;

// How far above the minimum speed the pressure loop asks for a fan more.
pub const STAGE_UP_MARGIN: f64 = 0.15;

// The pressure loop above the first opens the dampers, below the second shuts them.
pub const DAMPER_OPEN: f64 = 0.05;

pub const DAMPER_SHUT: f64 = 0.005;

// The hysteresis of the four levels of the pressure loop.
pub const HYS: f64 = 0.005;

// Orders and flags as numbers are told apart at one half.
pub const HALF: f64 = 0.5;

// How long the loop asks before the dampers shut, a fan is added, a fan is taken off.
pub const DAMPER_SHUT_TIME: f64 = 300.0;

pub const STAGE_UP_TIME: f64 = 420.0;

pub const STAGE_DOWN_TIME: f64 = 300.0;

// How long a fan has to prove its start, or its stop.
pub const PROOF_TIME: f64 = 2.0;
