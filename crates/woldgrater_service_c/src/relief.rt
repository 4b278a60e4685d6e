// Written by tools/words from the library woldgrater_service: an export says its clauses itself, and takes no generic record.
// The relief fan group: what a row's commands would be worked from, for a display or a logger, the alarms that a state remembers, and the line of a row.
ghost use Rattle.std.specs.Prelude.{◌≡◌};
ghost use Rattle.relief_fan_group.specs.Remembered.{relief_alarm};
ghost use Rattle.row_writer.specs.Writing.{write_row, ReadsBack};
ghost use Rattle.relief_lines.specs.Relief.{relief_kind};
ghost use Rattle.relief_words.specs.ReliefBlocks.{relief_blocks_of};
ghost use Rattle.relief_words.specs.ReliefRow.{relief_row_of};
ghost use Rattle.woldgrater.specs.Memory.{memory};
ghost use Rattle.woldgrater.specs.Relief.{relief_in};
ghost use Rattle.woldgrater_service.specs.Line.{LineLeft};
ghost use Rattle.woldgrater_service.specs.Shown.{relief_shown, alarm_given};

use relief_words::relief::ReliefWords;
use relief_words::relief_row::ReliefRowWords;
use woldgrater_service::line::LineGiven;
use woldgrater_service::relief::{AlarmGiven, ReliefShown};

// What the commands of a row would be worked from, and what is left on each timer. The state does not move.
#[unsafe(no_mangle)]
pub extern "C" fn woldgrater_relief_signals<'a>(
    times: &'a [f64; 512],
    integrals: &'a [f64; 512],
    state: ReliefWords,
    row: ReliefRowWords,
) -> ReliefShown
    ensures { result ≡ relief_shown (relief_in (memory state times.now integrals.now))
        (relief_row_of row) }
{
    woldgrater_service::relief::woldgrater_relief_signals(times, integrals, state, row)
}

// What a state remembers of the alarm of a fan, by its index from 0 to 3.
#[unsafe(no_mangle)]
pub extern "C" fn woldgrater_relief_alarm(state: ReliefWords, fan: usize) -> AlarmGiven
    ensures { result ≡ alarm_given (relief_alarm (relief_blocks_of state.blocks) fan) }
{
    woldgrater_service::relief::woldgrater_relief_alarm(state, fan)
}

// Writes the line of a row, with its newline, at the start of out: refused with 1 where a number is not finite, or else with 10 where it does not fit, and no
// byte changes then. What is written reads back as the row.
#[unsafe(no_mangle)]
pub extern "C" fn woldgrater_relief_line(row: ReliefRowWords, out: &mut [u8]) -> LineGiven
    ensures line_left { LineLeft (write_row relief_kind (relief_row_of row) out.old 0) result out.new }
    ensures reads_back { ReadsBack relief_kind (relief_row_of row) }
{
    woldgrater_service::relief::woldgrater_relief_line(row, out)
}
