// The joined row, a call a row, in memory that the caller holds: the words of its state, and the two arrays of the relief window, which are lent.
ghost use Rattle.std.specs.Prelude.{◌≡◌};
ghost use Rattle.block_words.specs.Flags.{word_flag};
ghost use Rattle.rooftop.specs.Step.{rooftop_start, rooftop_row};
ghost use Rattle.rooftop_words.specs.RooftopRow.{rooftop_row_of};
ghost use Rattle.woldgrater.specs.Memory.{memory};
ghost use Rattle.woldgrater.specs.Rooftop.{rooftop_memory, rooftop_in, rooftop_called, rooftop_given};

use crate::answered::Answered;
use rooftop::lent::{held_start, rooftop_row_lent};
use rooftop::types::{RooftopHeld, RooftopRow};
use rooftop_words::rooftop_commands::RooftopCommandsWords;
use rooftop_words::rooftop_row::RooftopRowWords;
use rooftop_words::rooftop_state::RooftopWords;

// A record for each sequence, since an export takes none that is generic.

// The state after a row, its status, and the commands of an accepted one: those of a refused one are 0 and mean nothing.
#[repr(C)]
#[derive(Clone, Copy)]
pub struct RooftopGiven {
    pub state: RooftopWords,
    // 0, or the number of the refusal: C has no Result.
    pub status: u64,
    pub commands: RooftopCommandsWords,
}

// The state of a start, before any row: the arrays are set to 0.
// Where the word is 0 freeze protection starts as the Rust's; with any other word its stage 2 keeps to its hour.
pub fn woldgrater_rooftop_start(
    times: &mut [f64; 512],
    integrals: &mut [f64; 512],
    keeps_hour: u64,
) -> RooftopWords
    ensures { memory result times.new integrals.new ≡ rooftop_memory (rooftop_start (word_flag keeps_hour)) }
{
    *times = [0.0; 512];
    *integrals = [0.0; 512];
    RooftopWords::from(held_start(keeps_hour != 0))
}

// One row: its commands and the next state, or its refusal and the old state.
pub fn woldgrater_rooftop_row(
    times: &mut [f64; 512],
    integrals: &mut [f64; 512],
    state: RooftopWords,
    row: RooftopRowWords,
) -> RooftopGiven
    ensures { rooftop_called result times.new integrals.new
        ≡ rooftop_given (rooftop_row (rooftop_in (memory state times.old integrals.old)) (rooftop_row_of row)) }
{
    let held = RooftopHeld::from(state);
    let step = rooftop_row_lent(held, times, integrals, RooftopRow::from(row));
    let answered = Answered::from(step.answer);
    RooftopGiven {
        state: RooftopWords::from(step.state),
        status: answered.status,
        commands: answered.commands,
    }
}
