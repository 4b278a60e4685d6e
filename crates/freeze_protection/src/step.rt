// A fresh state, the state after an accepted row, and the row itself: the public operation of freeze protection.
ghost use Rattle.std.specs.Prelude.{◌≡◌};
ghost use Rattle.freeze_protection.specs.Step.{freeze_start, freeze_fresh, freeze_next, freeze_row};

use crate::commands::freeze_commands;
use crate::constants::{
    BAND, COLD_STAGE_1, COLD_STAGE_2, COLD_STAGE_3, FIFTEEN_MINUTES, FIVE_MINUTES, HOUR,
    STAGE_1_SETPOINT, STAGE_3_SETPOINT, WARM,
};
use crate::signals::freeze_signals;
use crate::types::{FreezeRow, FreezeSignals, FreezeState, FreezeStep};
use crate::verdict::freeze_verdict;
use logical::edge::EdgeState;
use logical::held_timer::HeldTimerState;
use logical::hour_timer::HourTimerState;
use logical::latch::LatchState;
use logical::true_false_hold::TrueFalseHoldState;
use reals::pid::PidState;
use reals::threshold::ThresholdState;
use refusals::step::step_by;

// The state of a start, before any row: as freeze_protection.rs starts, or so that stage 2 keeps to its hour and then hands over to stage 1, as Guideline 36
// has it.
#[tactic(auto, unfolding(crate::specs::Step::freeze_start))]
pub fn freeze_start(keeps_hour: bool) -> FreezeState
    ensures { result ≡ freeze_start keeps_hour }
{
    FreezeState {
        last: None,
        les_thr: ThresholdState::below(COLD_STAGE_1, BAND),
        tim: HeldTimerState::new(FIVE_MINUTES),
        hea_coil_stage_1: PidState::new(),
        gre_thr: ThresholdState::above(WARM, BAND),
        lat: LatchState::new(),
        tim1: HeldTimerState::new(FIVE_MINUTES),
        end_sta_one: EdgeState::new(),
        les_thr1: ThresholdState::below(COLD_STAGE_2, BAND),
        tim2: HeldTimerState::new(FIVE_MINUTES),
        hol_sta2: TrueFalseHoldState::new(HOUR, 0.0),
        tim3: HeldTimerState::new(FIFTEEN_MINUTES),
        les_thr2: ThresholdState::below(COLD_STAGE_3, BAND),
        tim4: HeldTimerState::new(FIVE_MINUTES),
        lat1: LatchState::new(),
        hea_coil_stage_3: PidState::new(),
        tim5: HourTimerState::new(HOUR, keeps_hour),
        lat2: LatchState::new(),
        end_sta_two: EdgeState::new(),
    }
}

// The start of freeze_protection.rs.
#[tactic(auto, unfolding(crate::specs::Step::freeze_fresh))]
pub fn freeze_fresh() -> FreezeState
    ensures { result ≡ freeze_fresh }
{
    freeze_start(false)
}

// The state after an accepted row with these signals: every block is updated.
#[tactic(auto, unfolding(crate::specs::Step::freeze_next))]
pub fn freeze_next(state: FreezeState, row: FreezeRow, signals: FreezeSignals) -> FreezeState
    ensures { result ≡ freeze_next state row signals }
{
    let t = row.time;
    let supply = row.supply_air_temperature;
    FreezeState {
        last: Some(t),
        les_thr: state.les_thr.update(supply),
        tim: state.tim.update(t, signals.calls.les_thr_y),
        hea_coil_stage_1: state.hea_coil_stage_1.update(t, STAGE_1_SETPOINT, supply),
        gre_thr: state.gre_thr.update(supply),
        lat: state.lat.update(signals.or2_y, signals.calls.end_sta_one_y),
        tim1: state.tim1.update(t, signals.calls.gre_thr_y),
        end_sta_one: state.end_sta_one.update(signals.calls.tim1.passed),
        les_thr1: state.les_thr1.update(supply),
        tim2: state.tim2.update(t, signals.calls.les_thr1_y),
        hol_sta2: state.hol_sta2.update(t, signals.calls.tim2.passed),
        tim3: state.tim3.update(t, signals.calls.les_thr1_y),
        les_thr2: state.les_thr2.update(supply),
        tim4: state.tim4.update(t, signals.calls.les_thr2_y),
        lat1: state.lat1.update(signals.or8_y, row.software_reset),
        hea_coil_stage_3: state
            .hea_coil_stage_3
            .update(t, STAGE_3_SETPOINT, signals.stage_3_measurement),
        tim5: state.tim5.update(t, signals.calls.hol_sta2_y),
        lat2: state
            .lat2
            .update(signals.calls.hol_sta2_y, signals.end_sta_two_y),
        end_sta_two: state.end_sta_two.update(signals.tim5.passed),
    }
}

// One row: its commands and the next state, or its refusal and the old state.
#[tactic(auto, unfolding(crate::specs::Step::freeze_row, crate::specs::Step::step_by))]
pub fn freeze_row(state: FreezeState, row: FreezeRow) -> FreezeStep
    ensures { result ≡ freeze_row state row }
{
    step_by(freeze_verdict(state, row), state, || {
        let signals = freeze_signals(state, row);
        (
            freeze_commands(row, signals),
            freeze_next(state, row, signals),
        )
    })
}
