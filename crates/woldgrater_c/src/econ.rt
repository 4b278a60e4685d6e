// Written by tools/words from the library woldgrater: an export says its clauses itself, and takes no generic record.
// The economizer, a call a row, in memory that the caller holds.
ghost use Rattle.std.specs.Prelude.{◌≡◌};
ghost use Rattle.economizer_controller.specs.Step.{economizer_fresh, economizer_row};
ghost use Rattle.econ_words.specs.Economizer.{economizer_words, economizer_of};
ghost use Rattle.econ_words.specs.EconomizerRow.{economizer_row_of};
ghost use Rattle.woldgrater.specs.Economizer.{economizer_given};

use econ_words::economizer::EconomizerWords;
use econ_words::economizer_row::EconomizerRowWords;
use woldgrater::econ::EconomizerGiven;

// The state of a start, before any row.
#[unsafe(no_mangle)]
pub extern "C" fn woldgrater_econ_start() -> EconomizerWords
    ensures { result ≡ economizer_words economizer_fresh }
{
    woldgrater::econ::woldgrater_econ_start()
}

// One row: its commands and the next state, or its refusal and the old state.
#[unsafe(no_mangle)]
pub extern "C" fn woldgrater_econ_row(
    state: EconomizerWords,
    row: EconomizerRowWords,
) -> EconomizerGiven
    ensures { result ≡ economizer_given (economizer_row (economizer_of state) (economizer_row_of row)) }
{
    woldgrater::econ::woldgrater_econ_row(state, row)
}
