// Written by tools/words from the library woldgrater: an export says its clauses itself, and takes no generic record.
// The relief fan group, a call a row, in memory that the caller holds: the words of its state, and the two arrays of its window, which are lent.
ghost use Rattle.std.specs.Prelude.{◌≡◌};
ghost use Rattle.relief_fan_group.specs.Step.{relief_fresh, relief_row};
ghost use Rattle.relief_words.specs.ReliefRow.{relief_row_of};
ghost use Rattle.woldgrater.specs.Memory.{memory};
ghost use Rattle.woldgrater.specs.Relief.{relief_memory, relief_in, relief_called, relief_given};

use relief_words::relief::ReliefWords;
use relief_words::relief_row::ReliefRowWords;
use woldgrater::relief::ReliefGiven;

// The state of a start, before any row: the arrays are set to 0.
#[unsafe(no_mangle)]
pub extern "C" fn woldgrater_relief_start(
    times: &mut [f64; 512],
    integrals: &mut [f64; 512],
) -> ReliefWords
    ensures { memory result times.new integrals.new ≡ relief_memory relief_fresh }
{
    woldgrater::relief::woldgrater_relief_start(times, integrals)
}

// One row: its commands and the next state, or its refusal and the old state.
#[unsafe(no_mangle)]
pub extern "C" fn woldgrater_relief_row(
    times: &mut [f64; 512],
    integrals: &mut [f64; 512],
    state: ReliefWords,
    row: ReliefRowWords,
) -> ReliefGiven
    ensures { relief_called result times.new integrals.new
        ≡ relief_given (relief_row (relief_in (memory state times.old integrals.old)) (relief_row_of row)) }
{
    woldgrater::relief::woldgrater_relief_row(times, integrals, state, row)
}
