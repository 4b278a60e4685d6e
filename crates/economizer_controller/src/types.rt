// The records of the economizer, with the names and the order of economizer_controller.rs.
use crate::enable::EnableState;
use reals::pid_with_reset::PidWithResetState;
use refusals::Refusal;
use refusals::step::Step;

// A sampled row: its time in seconds, and `Row`. Airflows are normalized, the temperature is in kelvin. Mode 1 is occupied; stage 0 is no freeze protection.
#[derive(Clone, Copy)]
pub struct EconomizerRow {
    pub time: f64,
    pub outdoor_airflow_normalized: f64,
    pub minimum_outdoor_airflow_setpoint_normalized: f64,
    pub supply_temperature_signal: f64,
    pub outdoor_air_temperature: f64,
    pub supply_fan_status: bool,
    // Numbers, of which any is accepted.
    pub operation_mode: i64,
    pub freeze_protection_stage: i64,
}

// The time of the last accepted row, the loop of the first pass and the blocks of the second. The third has none.
#[derive(Clone, Copy)]
pub struct EconomizerState {
    pub last: Option<f64>,
    pub minimum_outdoor_air_loop: PidWithResetState,
    pub enable: EnableState,
}

// The damper limits that the first pass gives: those of `DamperLimitsTrace`. Positions from 0 to 1.
#[derive(Clone, Copy)]
pub struct DamperLimits {
    pub outdoor_damper_min_limit: f64,
    pub outdoor_damper_max_limit: f64,
    pub return_damper_min_limit: f64,
    pub return_damper_max_limit: f64,
    pub return_damper_physical_max_limit: f64,
}

// What the blocks of the second pass give at a row.
#[derive(Clone, Copy)]
pub struct EnableSignals {
    pub dry_bulb_delta: f64,
    pub outdoor_air_condition: bool,
    pub held_condition: bool,
    pub enabled: bool,
    pub outdoor_delay_done: bool,
    pub return_delay_done: bool,
}

// The damper limits that the second pass gives: `EnableTrace`.
#[derive(Clone, Copy)]
pub struct EnableLimits {
    pub outdoor_damper_max_limit: f64,
    pub return_damper_min_limit: f64,
    pub return_damper_max_limit: f64,
}

// The damper positions that the third pass gives.
#[derive(Clone, Copy)]
pub struct ReliefModulation {
    pub outdoor_damper_command: f64,
    pub return_damper_command: f64,
}

// Every block's output at a row, and the limits worked from them: what the commands and the next state are worked from.
#[derive(Clone, Copy)]
pub struct EconomizerSignals {
    pub loop_signal: f64,
    pub minimum_outdoor_air_loop_enabled: bool,
    pub damper_limits: DamperLimits,
    pub enable: EnableSignals,
    pub enable_limits: EnableLimits,
}

// The outputs, in the order of `ControllerTrace`.
#[derive(Clone, Copy)]
pub struct EconomizerCommands {
    pub outdoor_damper_min_limit: f64,
    pub minimum_outdoor_air_loop_enabled: bool,
    pub outdoor_damper_command: f64,
    pub return_damper_command: f64,
}

// A row's answer: the commands of an accepted row, or the refusal.
pub type EconomizerAnswer = Result<EconomizerCommands, Refusal>;

// A row's answer, and the state for the next row.
pub type EconomizerStep = Step<EconomizerCommands, EconomizerState>;
