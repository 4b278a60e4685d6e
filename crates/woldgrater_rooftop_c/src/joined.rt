// Written by tools/words from the library woldgrater: an export says its clauses itself, and takes no generic record.
// The joined row, a call a row, in memory that the caller holds: the words of its state, and the two arrays of the relief window, which are lent.
ghost use Rattle.std.specs.Prelude.{◌≡◌};
ghost use Rattle.block_words.specs.Flags.{word_flag};
ghost use Rattle.rooftop.specs.Step.{rooftop_start, rooftop_row};
ghost use Rattle.rooftop_words.specs.RooftopRow.{rooftop_row_of};
ghost use Rattle.woldgrater.specs.Memory.{memory};
ghost use Rattle.woldgrater.specs.Rooftop.{rooftop_memory, rooftop_in, rooftop_called, rooftop_given};

use rooftop_words::rooftop_row::RooftopRowWords;
use rooftop_words::rooftop_state::RooftopWords;
use woldgrater::joined::RooftopGiven;

// The state of a start, before any row: the arrays are set to 0.
// Where the word is 0 freeze protection starts as the Rust's; with any other word its stage 2 keeps to its hour.
#[unsafe(no_mangle)]
pub extern "C" fn woldgrater_rooftop_start(
    times: &mut [f64; 512],
    integrals: &mut [f64; 512],
    keeps_hour: u64,
) -> RooftopWords
    ensures { memory result times.new integrals.new ≡ rooftop_memory (rooftop_start (word_flag keeps_hour)) }
{
    woldgrater::joined::woldgrater_rooftop_start(times, integrals, keeps_hour)
}

// One row: its commands and the next state, or its refusal and the old state.
#[unsafe(no_mangle)]
pub extern "C" fn woldgrater_rooftop_row(
    times: &mut [f64; 512],
    integrals: &mut [f64; 512],
    state: RooftopWords,
    row: RooftopRowWords,
) -> RooftopGiven
    ensures { rooftop_called result times.new integrals.new
        ≡ rooftop_given (rooftop_row (rooftop_in (memory state times.old integrals.old)) (rooftop_row_of row)) }
{
    woldgrater::joined::woldgrater_rooftop_row(times, integrals, state, row)
}
