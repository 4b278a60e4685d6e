// The records of the relief fan group, with the names and the order of relief_fan_group.rs.
use logical::latch::LatchState;
use logical::pre::PreState;
use logical::present_timer::PresentTimerState;
use logical::timer::TimerOutput;
use logical::true_delay_on_init::TrueDelayOnInitState;
use moving_average::lent::Integrator;
use moving_average::state::MovingAverageState;
use reals::threshold::ThresholdState;
use refusals::Refusal;
use refusals::step::Step;

// A sampled row: its time in seconds, and `Inputs`. The pressure in pascal, an alarm's level, a flag for each fan.
#[derive(Clone, Copy)]
pub struct ReliefRow {
    pub time: f64,
    pub supply: [bool; 2],
    pub pressure: f64,
    // Numbers: a row may have any.
    pub alarm: [i64; 4],
    pub proof: [bool; 4],
}

// The blocks of `relief_fan_group_trace` but its moving average, and of the last accepted row the time, and the alarm of each fan in a signed byte.
#[derive(Clone, Copy)]
pub struct ReliefBlocks {
    pub last: Option<f64>,
    pub alarms: [i8; 4],
    pub gre_thr: ThresholdState,
    pub les_thr: ThresholdState,
    pub tim: PresentTimerState,
    pub lat: LatchState,
    pub gre_thr1: [ThresholdState; 4],
    pub gre_thr2: ThresholdState,
    pub up_tim: PresentTimerState,
    pub pre: PreState,
    pub les_thr1: [ThresholdState; 4],
    pub les_thr2: [ThresholdState; 4],
    pub tru_del: [TrueDelayOnInitState; 4],
    pub lat2: LatchState,
    pub les_thr3: ThresholdState,
    pub dow_tim: PresentTimerState,
    pub pre1: PreState,
    pub les_thr4: [ThresholdState; 4],
    pub les_thr5: [ThresholdState; 4],
    pub tru_del1: [TrueDelayOnInitState; 4],
    pub lat1: LatchState,
    pub gre_thr3: [ThresholdState; 4],
}

// The moving average, whose window is large, beside all other state.
#[derive(Clone, Copy)]
pub struct ReliefState {
    pub window: MovingAverageState,
    pub blocks: ReliefBlocks,
}

// The state but its window's arrays, which are lent beside it.
#[derive(Clone, Copy)]
pub struct ReliefHeld {
    pub integrator: Integrator,
    pub blocks: ReliefBlocks,
}

// The pressure loop, and the fans that the supply fans enable.
#[derive(Clone, Copy)]
pub struct PressureControl {
    pub average: f64,
    pub controller: f64,
    pub ena_rel_group: bool,
    pub gated_controller: f64,
    pub ena_rel: [f64; 4],
    pub gai: [f64; 4],
    pub any_enabled: bool,
}

// The dampers of stage zero, and the timer whose pass shuts them.
#[derive(Clone, Copy)]
pub struct DamperEnable {
    pub damper_open: bool,
    pub damper_close_request: bool,
    pub tim: TimerOutput,
    pub ena_dam: [bool; 4],
}

// The next fan to start, the timer whose pass is the up pulse, and the latch that it sets.
#[derive(Clone, Copy)]
pub struct StageUp {
    pub all_fans_off: bool,
    pub pro1: [f64; 4],
    pub up_distance: [f64; 4],
    pub or2: [bool; 4],
    pub all_newly_started_proven: bool,
    pub up_gate: bool,
    pub up_tim: TimerOutput,
    pub lat2_y: bool,
}

// The next fan to stop, the timer whose pass is the down pulse, and the latch that it sets.
#[derive(Clone, Copy)]
pub struct StageDown {
    pub pro2: [f64; 4],
    pub down_distance: [f64; 4],
    pub xor: [bool; 4],
    pub not5: [bool; 4],
    pub all_stopped_matches: bool,
    pub down_gate: bool,
    pub dow_tim: TimerOutput,
    pub lat1_y: bool,
}

// Every block's output at a row: what the commands and the next state are worked from.
#[derive(Clone, Copy)]
pub struct ReliefSignals {
    pub control: PressureControl,
    pub dampers: DamperEnable,
    pub up: StageUp,
    pub down: StageDown,
}

// The seconds left until each timer passes: tim shuts the dampers of stage zero, up_tim is the up pulse, and dow_tim the down pulse. A timer whose input is off has its
// whole time left.
#[derive(Clone, Copy)]
pub struct ReliefLeft {
    pub tim: f64,
    pub up_tim: f64,
    pub dow_tim: f64,
}

// The outputs, in the order of `Trace`.
#[derive(Clone, Copy)]
pub struct ReliefCommands {
    pub averaged_pressure: f64,
    // Speeds and dampers by name: C's record is written from these.
    pub fan_speed_1: f64,
    pub fan_speed_2: f64,
    pub fan_speed_3: f64,
    pub fan_speed_4: f64,
    pub damper_1: f64,
    pub damper_2: f64,
    pub damper_3: f64,
    pub damper_4: f64,
}

// A row's answer: the commands of an accepted row, or the refusal.
pub type ReliefAnswer = Result<ReliefCommands, Refusal>;

// A row's answer, and the state for the next row.
pub type ReliefStep = Step<ReliefCommands, ReliefState>;
