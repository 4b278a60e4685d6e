// A fresh state, the state after an accepted row, and the row itself: the public operation of the relief fan group.
ghost use Rattle.std.specs.Prelude.{◌≡◌};
ghost use Rattle.relief_fan_group.specs.Step.{relief_blocks, relief_fresh, relief_next, relief_row};

use crate::commands::relief_commands;
use crate::constants::{
    DAMPER_OPEN, DAMPER_SHUT, DAMPER_SHUT_TIME, HALF, HYS, PROOF_TIME, REL_FAN_SPEED_MIN,
    STAGE_DOWN_TIME, STAGE_UP_MARGIN, STAGE_UP_TIME,
};
use crate::signals::relief_signals;
use crate::types::{ReliefBlocks, ReliefRow, ReliefSignals, ReliefState, ReliefStep};
use crate::verdict::relief_verdict;
use logical::latch::LatchState;
use logical::pre::PreState;
use logical::present_timer::PresentTimerState;
use logical::true_delay_on_init::TrueDelayOnInitState;
use moving_average::state::MovingAverageState;
use reals::threshold::ThresholdState;
use refusals::step::Step;
use relief_fans::alarms::alarm_bytes;
use relief_fans::blocks::{delay_updates, threshold_updates};

// The blocks of a start, before any row.
#[tactic(auto, unfolding(crate::specs::Step::relief_blocks))]
pub fn relief_blocks() -> ReliefBlocks
    ensures { result ≡ relief_blocks }
{
    let above = ThresholdState::above(HALF, 0.0);
    let below = ThresholdState::below(HALF, 0.0);
    let delay = TrueDelayOnInitState::new(PROOF_TIME);
    ReliefBlocks {
        last: None,
        alarms: [0; 4],
        gre_thr: ThresholdState::above(DAMPER_OPEN, HYS),
        les_thr: ThresholdState::below(DAMPER_SHUT, HYS),
        tim: PresentTimerState::new(DAMPER_SHUT_TIME),
        lat: LatchState::new(),
        gre_thr1: [above; 4],
        gre_thr2: ThresholdState::above(REL_FAN_SPEED_MIN + STAGE_UP_MARGIN, HYS),
        up_tim: PresentTimerState::new(STAGE_UP_TIME),
        pre: PreState::new(true),
        les_thr1: [below; 4],
        les_thr2: [below; 4],
        tru_del: [delay; 4],
        lat2: LatchState::new(),
        les_thr3: ThresholdState::below(REL_FAN_SPEED_MIN, HYS),
        dow_tim: PresentTimerState::new(STAGE_DOWN_TIME),
        pre1: PreState::new(true),
        les_thr4: [below; 4],
        les_thr5: [below; 4],
        tru_del1: [delay; 4],
        lat1: LatchState::new(),
        gre_thr3: [above; 4],
    }
}

// The state of a start, before any row.
#[tactic(auto, unfolding(crate::specs::Step::relief_fresh))]
pub fn relief_fresh() -> ReliefState
    ensures { result ≡ relief_fresh }
{
    ReliefState {
        window: MovingAverageState::new(),
        blocks: relief_blocks(),
    }
}

// The blocks after an accepted row with these signals: every block is updated, and the row's alarms are kept.
#[tactic(auto, unfolding(crate::specs::Step::relief_next))]
pub fn relief_next(blocks: ReliefBlocks, row: ReliefRow, signals: ReliefSignals) -> ReliefBlocks
    ensures { result ≡ relief_next blocks row signals }
{
    let t = row.time;
    ReliefBlocks {
        last: Some(t),
        alarms: alarm_bytes(row.alarm),
        gre_thr: blocks.gre_thr.update(signals.control.controller),
        les_thr: blocks.les_thr.update(signals.control.controller),
        tim: blocks.tim.update(t, signals.dampers.damper_close_request),
        lat: blocks
            .lat
            .update(signals.dampers.damper_open, signals.dampers.tim.passed),
        gre_thr1: threshold_updates(blocks.gre_thr1, signals.control.gai),
        gre_thr2: blocks.gre_thr2.update(signals.control.controller),
        up_tim: blocks.up_tim.update(t, signals.up.up_gate),
        pre: blocks.pre.update(!signals.up.up_tim.passed),
        les_thr1: threshold_updates(blocks.les_thr1, signals.up.pro1),
        les_thr2: threshold_updates(blocks.les_thr2, signals.up.up_distance),
        tru_del: delay_updates(blocks.tru_del, t, signals.up.or2),
        lat2: blocks.lat2.update(
            signals.up.up_tim.passed,
            signals.up.all_newly_started_proven,
        ),
        les_thr3: blocks.les_thr3.update(signals.control.controller),
        dow_tim: blocks.dow_tim.update(t, signals.down.down_gate),
        pre1: blocks.pre1.update(!signals.down.dow_tim.passed),
        les_thr4: threshold_updates(blocks.les_thr4, signals.down.pro2),
        les_thr5: threshold_updates(blocks.les_thr5, signals.down.down_distance),
        tru_del1: delay_updates(blocks.tru_del1, t, signals.down.not5),
        lat1: blocks.lat1.update(
            signals.down.dow_tim.passed,
            signals.down.all_stopped_matches,
        ),
        gre_thr3: threshold_updates(blocks.gre_thr3, signals.control.ena_rel),
    }
}

// One row: its commands and the next state, or its refusal and the old state.
#[tactic(auto, unfolding(crate::specs::Step::relief_row, crate::specs::Step::step_by, crate::specs::Step::signals_at))]
pub fn relief_row(state: ReliefState, row: ReliefRow) -> ReliefStep
    ensures { result ≡ relief_row state row }
{
    let full = state.window.is_full(row.time);
    // No `step_by`: the state holds the arrays of the window, 8 KB, and a closure that hands on the next one makes every row copy them more than twice as often.
    match relief_verdict(state.blocks, row, full) {
        Ok(()) => {
            let average = state.window.output(row.time, row.pressure);
            let signals = relief_signals(state.blocks, row, average);
            Step {
                answer: Ok(relief_commands(row, signals)),
                state: ReliefState {
                    window: state.window.update(row.time, row.pressure),
                    blocks: relief_next(state.blocks, row, signals),
                },
            }
        }
        Err(refusal) => Step {
            answer: Err(refusal),
            state,
        },
    }
}
