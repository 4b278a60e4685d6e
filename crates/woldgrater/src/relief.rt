// The relief fan group, a call a row, in memory that the caller holds: the words of its state, and the two arrays of its window, which are lent.
ghost use Rattle.std.specs.Prelude.{◌≡◌};
ghost use Rattle.relief_fan_group.specs.Step.{relief_fresh, relief_row};
ghost use Rattle.relief_words.specs.ReliefRow.{relief_row_of};
ghost use Rattle.woldgrater.specs.Memory.{memory};
ghost use Rattle.woldgrater.specs.Relief.{relief_memory, relief_in, relief_called, relief_given};

use crate::answered::Answered;
use relief_fan_group::lent::{held_fresh, relief_row_lent};
use relief_fan_group::types::{ReliefHeld, ReliefRow};
use relief_words::relief::ReliefWords;
use relief_words::relief_commands::ReliefCommandsWords;
use relief_words::relief_row::ReliefRowWords;

// A record for each sequence, since an export takes none that is generic.

// The state after a row, its status, and the commands of an accepted one: those of a refused one are 0 and mean nothing.
#[repr(C)]
#[derive(Clone, Copy)]
pub struct ReliefGiven {
    pub state: ReliefWords,
    // 0, or the number of the refusal: C has no Result.
    pub status: u64,
    pub commands: ReliefCommandsWords,
}

// The state of a start, before any row: the arrays are set to 0.
pub fn woldgrater_relief_start(times: &mut [f64; 512], integrals: &mut [f64; 512]) -> ReliefWords
    ensures { memory result times.new integrals.new ≡ relief_memory relief_fresh }
{
    *times = [0.0; 512];
    *integrals = [0.0; 512];
    ReliefWords::from(held_fresh())
}

// One row: its commands and the next state, or its refusal and the old state.
pub fn woldgrater_relief_row(
    times: &mut [f64; 512],
    integrals: &mut [f64; 512],
    state: ReliefWords,
    row: ReliefRowWords,
) -> ReliefGiven
    ensures { relief_called result times.new integrals.new
        ≡ relief_given (relief_row (relief_in (memory state times.old integrals.old)) (relief_row_of row)) }
{
    let held = ReliefHeld::from(state);
    let step = relief_row_lent(held, times, integrals, ReliefRow::from(row));
    let answered = Answered::from(step.answer);
    ReliefGiven {
        state: ReliefWords::from(step.state),
        status: answered.status,
        commands: answered.commands,
    }
}
