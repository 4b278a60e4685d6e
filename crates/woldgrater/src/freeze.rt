// Freeze protection, a call a row, in memory that the caller holds.
ghost use Rattle.std.specs.Prelude.{◌≡◌};
ghost use Rattle.block_words.specs.Flags.{word_flag};
ghost use Rattle.freeze_protection.specs.Step.{freeze_start, freeze_row};
ghost use Rattle.freeze_words.specs.Freeze.{freeze_words, freeze_of};
ghost use Rattle.freeze_words.specs.FreezeRow.{freeze_row_of};
ghost use Rattle.woldgrater.specs.Freeze.{freeze_given};

use crate::answered::Answered;
use freeze_protection::step::{freeze_row, freeze_start};
use freeze_protection::types::{FreezeRow, FreezeState};
use freeze_words::freeze::FreezeWords;
use freeze_words::freeze_commands::FreezeCommandsWords;
use freeze_words::freeze_row::FreezeRowWords;

// A record for each sequence, since an export takes none that is generic.

// The state after a row, its status, and the commands of an accepted one: those of a refused one are 0 and mean nothing.
#[repr(C)]
#[derive(Clone, Copy)]
pub struct FreezeGiven {
    pub state: FreezeWords,
    // 0, or the number of the refusal: C has no Result.
    pub status: u64,
    pub commands: FreezeCommandsWords,
}

// The state of a start, before any row.
// Where the word is 0 it is the Rust's start; with any other word stage 2 keeps to its hour.
#[tactic(auto, unfolding(block_words::specs::Flags::word_flag))]
pub fn woldgrater_freeze_start(keeps_hour: u64) -> FreezeWords
    ensures { result ≡ freeze_words (freeze_start (word_flag keeps_hour)) }
{
    FreezeWords::from(freeze_start(keeps_hour != 0))
}

// One row: its commands and the next state, or its refusal and the old state.
pub fn woldgrater_freeze_row(state: FreezeWords, row: FreezeRowWords) -> FreezeGiven
    ensures { result ≡ freeze_given (freeze_row (freeze_of state) (freeze_row_of row)) }
{
    let held = FreezeState::from(state);
    let step = freeze_row(held, FreezeRow::from(row));
    let answered = Answered::from(step.answer);
    FreezeGiven {
        state: FreezeWords::from(step.state),
        status: answered.status,
        commands: answered.commands,
    }
}
