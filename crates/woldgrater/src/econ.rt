// Written by tools/words from what freeze protection has.
// The economizer, a call a row, in memory that the caller holds.
ghost use Rattle.std.specs.Prelude.{◌≡◌};
ghost use Rattle.economizer_controller.specs.Step.{economizer_fresh, economizer_row};
ghost use Rattle.econ_words.specs.Economizer.{economizer_words, economizer_of};
ghost use Rattle.econ_words.specs.EconomizerRow.{economizer_row_of};
ghost use Rattle.woldgrater.specs.Economizer.{economizer_given};

use crate::answered::Answered;
use econ_words::economizer::EconomizerWords;
use econ_words::economizer_commands::EconomizerCommandsWords;
use econ_words::economizer_row::EconomizerRowWords;
use economizer_controller::step::{economizer_fresh, economizer_row};
use economizer_controller::types::{EconomizerRow, EconomizerState};

// A record for each sequence, since an export takes none that is generic.

// The state after a row, its status, and the commands of an accepted one: those of a refused one are 0 and mean nothing.
#[repr(C)]
#[derive(Clone, Copy)]
pub struct EconomizerGiven {
    pub state: EconomizerWords,
    // 0, or the number of the refusal: C has no Result.
    pub status: u64,
    pub commands: EconomizerCommandsWords,
}

// The state of a start, before any row.
pub fn woldgrater_econ_start() -> EconomizerWords
    ensures { result ≡ economizer_words economizer_fresh }
{
    EconomizerWords::from(economizer_fresh())
}

// One row: its commands and the next state, or its refusal and the old state.
pub fn woldgrater_econ_row(state: EconomizerWords, row: EconomizerRowWords) -> EconomizerGiven
    ensures { result ≡ economizer_given (economizer_row (economizer_of state) (economizer_row_of row)) }
{
    let held = EconomizerState::from(state);
    let step = economizer_row(held, EconomizerRow::from(row));
    let answered = Answered::from(step.answer);
    EconomizerGiven {
        state: EconomizerWords::from(step.state),
        status: answered.status,
        commands: answered.commands,
    }
}
