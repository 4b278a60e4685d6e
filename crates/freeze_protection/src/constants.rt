// The constants of `freeze_protection_trace`: temperatures in kelvin, times in seconds. specs/Constants.antt holds each against its decimal.

// Supply air below these calls for a stage: 4.4, 3.3 and 1 °C.
pub const COLD_STAGE_1: f64 = 277.55;

pub const COLD_STAGE_2: f64 = 276.45;

pub const COLD_STAGE_3: f64 = 274.15;

// Supply air above this ends stage 1: 7 °C.
pub const WARM: f64 = 280.15;

// The hysteresis of all four.
pub const BAND: f64 = 0.25;

pub const FIVE_MINUTES: f64 = 300.0;

pub const FIFTEEN_MINUTES: f64 = 900.0;

pub const HOUR: f64 = 3600.0;

// Setpoints of the two heating coil loops: 6 °C for the supply air in stage 1, 27 °C for the warmer of supply and mixed air in stage 3.
pub const STAGE_1_SETPOINT: f64 = 279.15;

pub const STAGE_3_SETPOINT: f64 = 300.15;
