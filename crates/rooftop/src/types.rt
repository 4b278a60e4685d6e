// The records of the joined sequence. Fields have the names of the records of economizer_controller.rs, freeze_protection.rs and relief_fan_group.rs.
use economizer_controller::types::{EconomizerCommands, EconomizerState};
use freeze_protection::types::{FreezeCommands, FreezeState};
use refusals::Refusal;
use refusals::step::Step;
use relief_fan_group::types::{ReliefCommands, ReliefHeld, ReliefState};

// A sampled row: its time in seconds and the supply fan status, which more than one sequence takes; then what the economizer, freeze protection and the relief fan group take
// of their own. What one sequence hands to another is not in it.
#[derive(Clone, Copy)]
pub struct RooftopRow {
    pub time: f64,
    pub supply_fan_status: bool,
    pub outdoor_airflow_normalized: f64,
    pub minimum_outdoor_airflow_setpoint_normalized: f64,
    pub supply_temperature_signal: f64,
    pub outdoor_air_temperature: f64,
    // A number, of which any is accepted.
    pub operation_mode: i64,
    pub heating_coil: f64,
    pub minimum_outdoor_damper: f64,
    pub supply_air_temperature: f64,
    pub software_reset: bool,
    pub supply_fan_speed: f64,
    pub cooling_coil: f64,
    pub mixed_air_temperature: f64,
    pub pressure: f64,
    // Numbers: a row with one that a signed byte does not hold is refused.
    pub alarm: [i64; 4],
    pub proof: [bool; 4],
}

// The state of each sequence, and the stage that freeze protection had on the row accepted last; 0 before there is one.
#[derive(Clone, Copy)]
pub struct RooftopState {
    pub stage: i64,
    pub economizer: EconomizerState,
    pub freeze: FreezeState,
    pub relief: ReliefState,
}

// The state but the arrays of the relief window, which are lent beside it.
#[derive(Clone, Copy)]
pub struct RooftopHeld {
    pub stage: i64,
    pub economizer: EconomizerState,
    pub freeze: FreezeState,
    pub relief: ReliefHeld,
}

// The outputs of all three.
#[derive(Clone, Copy)]
pub struct RooftopCommands {
    pub economizer: EconomizerCommands,
    pub freeze: FreezeCommands,
    pub relief: ReliefCommands,
}

// A row's answer: the commands of an accepted row, or the refusal.
pub type RooftopAnswer = Result<RooftopCommands, Refusal>;

// A row's answer, and the state for the next row.
pub type RooftopStep = Step<RooftopCommands, RooftopState>;
