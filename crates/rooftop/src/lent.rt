// The joined row on a relief window whose arrays the caller lends, so that a row copies none of them. Helpers: the public operation is `rooftop_row`.
ghost use Rattle.std.specs.Prelude.{◌≡◌, pos, ◌≤◌};
ghost use Rattle.rooftop.specs.Step.{economizer_accepted, freeze_accepted, rooftop_start, rooftop_row};
ghost use Rattle.rooftop.specs.Lent.{held_of, lent_state, lent_step};

use crate::types::{RooftopCommands, RooftopHeld, RooftopRow};
use crate::verdict::{falls, rooftop_verdict};
use crate::wiring::{economizer_row_of, freeze_row_of, relief_row_of};
use economizer_controller::step::{
    economizer_commands, economizer_fresh, economizer_next, economizer_signals,
};
use economizer_controller::types::{EconomizerCommands, EconomizerRow, EconomizerState};
use freeze_protection::commands::freeze_commands;
use freeze_protection::signals::freeze_signals;
use freeze_protection::step::{freeze_next, freeze_start};
use freeze_protection::types::{FreezeCommands, FreezeRow, FreezeState};
use refusals::step::Step;
use relief_fan_group::lent::{held_fresh, relief_accepted_lent};

// `RooftopStep` without the window's arrays.
pub type LentStep = Step<RooftopCommands, RooftopHeld>;

// Helper: what `rooftop_start` gives, but the window's arrays, which are all 0 then.
#[tactic(auto, unfolding(crate::specs::Step::rooftop_start))]
pub fn held_start(keeps_hour: bool) -> RooftopHeld
    ensures { result ≡ held_of (rooftop_start keeps_hour) }
{
    RooftopHeld {
        stage: 0,
        economizer: economizer_fresh(),
        freeze: freeze_start(keeps_hour),
        relief: held_fresh(),
    }
}

// What an accepted row makes of the economizer: its commands, and the next state.
#[tactic(auto, unfolding(crate::specs::Step::economizer_accepted))]
fn economizer_accepted(
    state: EconomizerState,
    row: EconomizerRow,
) -> (EconomizerCommands, EconomizerState)
    ensures { result ≡ economizer_accepted state row }
{
    let signals = economizer_signals(state, row);
    (
        economizer_commands(row, signals),
        economizer_next(state, row, signals),
    )
}

// The same of freeze protection, whose stage is at most 3.
#[tactic(auto, using(freeze_protection::proofs::Stages::stage_at_most_3), unfolding(crate::specs::Step::freeze_accepted, freeze_protection::specs::Commands::freeze_commands))]
fn freeze_accepted(state: FreezeState, row: FreezeRow) -> (FreezeCommands, FreezeState)
    ensures accepted { result ≡ freeze_accepted state row }
    ensures stage { result.0.freeze_protection_stage ≤ 3 }
{
    let signals = freeze_signals(state, row);
    (
        freeze_commands(row, signals),
        freeze_next(state, row, signals),
    )
}

// A stage as the economizer's row has it.
fn stage_told(stage: u64) -> i64
    requires { stage ≤ 3 }
    ensures { result ≡ pos stage }
{
    stage as i64
}

// Helper: what `rooftop_row` gives, with the window's arrays changed where they stand.
#[tactic(auto, unfolding(crate::specs::Step::rooftop_row))]
pub fn rooftop_row_lent(
    held: RooftopHeld,
    times: &mut [f64; 512],
    integrals: &mut [f64; 512],
    row: RooftopRow,
) -> LentStep
    ensures { lent_step result times.new integrals.new ≡ rooftop_row (lent_state held times.old integrals.old) row }
{
    let full = held.relief.integrator.is_full(times, row.time);
    let falling = falls(
        held.economizer.last,
        held.freeze.last,
        held.relief.blocks.last,
        row.time,
    );
    let (economizer, economizer_next) = economizer_accepted(
        held.economizer,
        economizer_row_of(row, held.stage),
    );
    let mut state = held;
    let answer = match rooftop_verdict(falling, row, full, economizer) {
        Ok(()) => {
            let (freeze, freeze_next) = freeze_accepted(
                held.freeze,
                freeze_row_of(row, economizer),
            );
            let stage = stage_told(freeze.freeze_protection_stage);
            let relief_row = relief_row_of(row, freeze.supply_fan_status);
            let (relief, relief_next) = relief_accepted_lent(
                held.relief,
                times,
                integrals,
                relief_row,
            );
            state = RooftopHeld {
                stage,
                economizer: economizer_next,
                freeze: freeze_next,
                relief: relief_next,
            };
            Ok(RooftopCommands {
                economizer,
                freeze,
                relief,
            })
        }
        Err(refusal) => Err(refusal),
    };
    Step { answer, state }
}
