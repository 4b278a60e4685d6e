// Written by tools/words from the library woldgrater: an export says its clauses itself, and takes no generic record.
// Freeze protection, a call a row, in memory that the caller holds.
ghost use Rattle.std.specs.Prelude.{◌≡◌};
ghost use Rattle.block_words.specs.Flags.{word_flag};
ghost use Rattle.freeze_protection.specs.Step.{freeze_start, freeze_row};
ghost use Rattle.freeze_words.specs.Freeze.{freeze_words, freeze_of};
ghost use Rattle.freeze_words.specs.FreezeRow.{freeze_row_of};
ghost use Rattle.woldgrater.specs.Freeze.{freeze_given};

use freeze_words::freeze::FreezeWords;
use freeze_words::freeze_row::FreezeRowWords;
use woldgrater::freeze::FreezeGiven;

// The state of a start, before any row.
// Where the word is 0 it is the Rust's start; with any other word stage 2 keeps to its hour.
#[unsafe(no_mangle)]
pub extern "C" fn woldgrater_freeze_start(keeps_hour: u64) -> FreezeWords
    ensures { result ≡ freeze_words (freeze_start (word_flag keeps_hour)) }
{
    woldgrater::freeze::woldgrater_freeze_start(keeps_hour)
}

// One row: its commands and the next state, or its refusal and the old state.
#[unsafe(no_mangle)]
pub extern "C" fn woldgrater_freeze_row(state: FreezeWords, row: FreezeRowWords) -> FreezeGiven
    ensures { result ≡ freeze_given (freeze_row (freeze_of state) (freeze_row_of row)) }
{
    woldgrater::freeze::woldgrater_freeze_row(state, row)
}
