// Written by tools/words from the library woldgrater_service: an export says its clauses itself, and takes no generic record.
// Freeze protection: what a row's commands would be worked from, for a display or a logger, and the line of a row.
ghost use Rattle.std.specs.Prelude.{◌≡◌};
ghost use Rattle.row_writer.specs.Writing.{write_row, ReadsBack};
ghost use Rattle.freeze_protection.specs.Verdict.{freeze_verdict};
ghost use Rattle.freeze_protection.specs.Signals.{freeze_signals};
ghost use Rattle.freeze_protection.specs.Left.{freeze_left};
ghost use Rattle.freeze_words.specs.Freeze.{freeze_of};
ghost use Rattle.freeze_lines.specs.Freeze.{freeze_kind};
ghost use Rattle.freeze_words.specs.FreezeRow.{freeze_row_of};
ghost use Rattle.woldgrater_service.specs.Line.{LineLeft};
ghost use Rattle.woldgrater_service.specs.Shown.{freeze_shown};

use freeze_words::freeze::FreezeWords;
use freeze_words::freeze_row::FreezeRowWords;
use woldgrater_service::freeze::FreezeShown;
use woldgrater_service::line::LineGiven;

// What the commands of a row would be worked from. The state does not move.
// Beside it what is left on each timer.
#[unsafe(no_mangle)]
pub extern "C" fn woldgrater_freeze_signals(state: FreezeWords, row: FreezeRowWords) -> FreezeShown
    ensures { result ≡ freeze_shown (freeze_verdict (freeze_of state) (freeze_row_of row))
        (freeze_left (freeze_of state) (freeze_signals (freeze_of state) (freeze_row_of row)))
        (freeze_signals (freeze_of state) (freeze_row_of row)) }
{
    woldgrater_service::freeze::woldgrater_freeze_signals(state, row)
}

// Writes the line of a row, with its newline, at the start of out: refused with 1 where a number is not finite, or else with 10 where it does not fit, and no
// byte changes then. What is written reads back as the row.
#[unsafe(no_mangle)]
pub extern "C" fn woldgrater_freeze_line(row: FreezeRowWords, out: &mut [u8]) -> LineGiven
    ensures line_left { LineLeft (write_row freeze_kind (freeze_row_of row) out.old 0) result out.new }
    ensures reads_back { ReadsBack freeze_kind (freeze_row_of row) }
{
    woldgrater_service::freeze::woldgrater_freeze_line(row, out)
}
