// The records of freeze protection, with the names and the order of freeze_protection.rs.
use logical::edge::EdgeState;
use logical::held_timer::HeldTimerState;
use logical::hour_timer::HourTimerState;
use logical::latch::LatchState;
use logical::timer::TimerOutput;
use logical::true_false_hold::TrueFalseHoldState;
use reals::pid::PidState;
use reals::threshold::ThresholdState;
use refusals::Refusal;
use refusals::step::Step;

// A sampled row: its time in seconds, and `Inputs`. Temperatures in kelvin, positions and speeds from 0 to 1.
#[derive(Clone, Copy)]
pub struct FreezeRow {
    pub time: f64,
    pub outdoor_damper_min_position: f64,
    pub outdoor_damper: f64,
    pub heating_coil: f64,
    pub minimum_outdoor_damper: f64,
    pub return_damper: f64,
    pub supply_air_temperature: f64,
    pub software_reset: bool,
    pub supply_fan_status: bool,
    pub supply_fan_speed: f64,
    pub cooling_coil: f64,
    pub mixed_air_temperature: f64,
}

// The blocks of `freeze_protection_trace`, and the time of the last accepted row. The manner of the start is tim5's.
#[derive(Clone, Copy)]
pub struct FreezeState {
    pub last: Option<f64>,
    pub les_thr: ThresholdState,
    pub tim: HeldTimerState,
    pub hea_coil_stage_1: PidState,
    pub gre_thr: ThresholdState,
    pub lat: LatchState,
    pub tim1: HeldTimerState,
    pub end_sta_one: EdgeState,
    pub les_thr1: ThresholdState,
    pub tim2: HeldTimerState,
    pub hol_sta2: TrueFalseHoldState,
    pub tim3: HeldTimerState,
    pub les_thr2: ThresholdState,
    pub tim4: HeldTimerState,
    pub lat1: LatchState,
    pub hea_coil_stage_3: PidState,
    pub tim5: HourTimerState,
    pub lat2: LatchState,
    pub end_sta_two: EdgeState,
}

// The outputs of the thresholds and the whole answers of the timers on them: what the temperature calls for.
#[derive(Clone, Copy)]
pub struct FreezeCalls {
    pub les_thr_y: bool,
    pub tim: TimerOutput,
    pub gre_thr_y: bool,
    pub tim1: TimerOutput,
    pub end_sta_one_y: bool,
    pub les_thr1_y: bool,
    pub tim2: TimerOutput,
    pub hol_sta2_y: bool,
    pub tim3: TimerOutput,
    pub les_thr2_y: bool,
    pub tim4: TimerOutput,
}

// Every block's output at a row: what the commands and the next state are worked from.
#[derive(Clone, Copy)]
pub struct FreezeSignals {
    pub calls: FreezeCalls,
    pub or8_y: bool,
    pub lat1_y: bool,
    pub tim5: TimerOutput,
    pub end_sta_two_y: bool,
    pub lat2_y: bool,
    pub or2_y: bool,
    pub lat_y: bool,
    // 0 to 3: the stage as the Rust and the row lines have it.
    pub stage: u64,
    pub stage_1_heat: f64,
    pub stage_3_measurement: f64,
    pub stage_3_heat: f64,
}

// The seconds left until each timer passes: tim calls stage 1, tim1 ends it, tim2 and its hold begin stage 2, tim3 or tim4 calls stage 3, and tim5 ends stage 2. A
// timer whose input is off has its whole time left; where stage 2 keeps to its hour, tim5 runs on, and has its whole time left until the hold first comes on.
#[derive(Clone, Copy)]
pub struct FreezeLeft {
    pub tim: f64,
    pub tim1: f64,
    pub tim2: f64,
    pub tim3: f64,
    pub tim4: f64,
    pub tim5: f64,
}

// The outputs, in the order of `Trace`.
#[derive(Clone, Copy)]
pub struct FreezeCommands {
    // Stage, request and alarm level are numbers, as the model, row lines and C have them.
    pub freeze_protection_stage: u64,
    pub chilled_water_pump_enable: bool,
    pub return_damper_command: f64,
    pub outdoor_damper_command: f64,
    pub minimum_outdoor_damper_command: f64,
    pub supply_fan_status: bool,
    pub supply_fan_speed: f64,
    pub cooling_coil_command: f64,
    pub heating_coil_command: f64,
    pub hot_water_plant_request: u64,
    pub alarm_level: u64,
}

// A row's answer: the commands of an accepted row, or the refusal.
pub type FreezeAnswer = Result<FreezeCommands, Refusal>;

// A row's answer, and the state for the next row.
pub type FreezeStep = Step<FreezeCommands, FreezeState>;
