// The row on a window whose arrays the caller lends, so that a row copies none of them. Helpers: the public operation is `relief_row`.
ghost use Rattle.std.specs.Prelude.{◌≡◌};
ghost use Rattle.relief_fan_group.specs.Step.{relief_fresh, signals_at, relief_after, relief_row};
ghost use Rattle.relief_fan_group.specs.Commands.{relief_commands};
ghost use Rattle.relief_fan_group.specs.Lent.{held_of, lent_state, lent_step};

use crate::commands::relief_commands;
use crate::signals::relief_signals;
use crate::step::{relief_blocks, relief_next};
use crate::types::{ReliefCommands, ReliefHeld, ReliefRow};
use crate::verdict::relief_verdict;
use moving_average::lent::Integrator;
use refusals::step::Step;

// `ReliefStep` without the window's arrays.
pub type LentStep = Step<ReliefCommands, ReliefHeld>;

// Helper: what `relief_fresh` gives, but the window's arrays, which are all 0 then.
#[tactic(auto, unfolding(crate::specs::Step::relief_fresh, moving_average::specs::State::moving_average_new))]
pub fn held_fresh() -> ReliefHeld
    ensures { result ≡ held_of relief_fresh }
{
    ReliefHeld {
        integrator: Integrator {
            t_start: 0.0,
            prev_t: None,
            mu: 0.0,
            count: 0,
        },
        blocks: relief_blocks(),
    }
}

// Helper: the commands of an accepted row, and the state after it, with the window's arrays changed where they stand.
#[tactic(auto, unfolding(crate::specs::Step::signals_at))]
pub fn relief_accepted_lent(
    held: ReliefHeld,
    times: &mut [f64; 512],
    integrals: &mut [f64; 512],
    row: ReliefRow,
) -> (ReliefCommands, ReliefHeld)
    ensures commands { result.0 ≡ relief_commands row (signals_at (lent_state held times.old integrals.old) row) }
    ensures after { lent_state result.1 times.new integrals.new
        ≡ relief_after (lent_state held times.old integrals.old) row }
{
    let average = held
        .integrator
        .output(times, integrals, row.time, row.pressure);
    let signals = relief_signals(held.blocks, row, average);
    let integrator = held
        .integrator
        .update(times, integrals, row.time, row.pressure);
    let next = ReliefHeld {
        integrator,
        blocks: relief_next(held.blocks, row, signals),
    };
    (relief_commands(row, signals), next)
}

// Helper: what `relief_row` gives, with the window's arrays changed where they stand.
#[tactic(auto, unfolding(crate::specs::Step::relief_row, crate::specs::Step::step_by))]
pub fn relief_row_lent(
    held: ReliefHeld,
    times: &mut [f64; 512],
    integrals: &mut [f64; 512],
    row: ReliefRow,
) -> LentStep
    ensures { lent_step result times.new integrals.new ≡ relief_row (lent_state held times.old integrals.old) row }
{
    let full = held.integrator.is_full(times, row.time);
    // No `step_by`: where it calls no closure, nothing is known of the arrays that one would change. The old state stands until the row is accepted: a copy of its own
    // in each case would make every row copy the unused bytes between the fields.
    let mut state = held;
    let answer = match relief_verdict(held.blocks, row, full) {
        Ok(()) => {
            let (commands, next) = relief_accepted_lent(held, times, integrals, row);
            state = next;
            Ok(commands)
        }
        Err(refusal) => Err(refusal),
    };
    Step { answer, state }
}
