// Written by tools/words from the library woldgrater_service: an export says its clauses itself, and takes no generic record.
// The economizer: what a row's commands would be worked from, for a display or a logger, and the line of a row.
ghost use Rattle.std.specs.Prelude.{◌≡◌};
ghost use Rattle.row_writer.specs.Writing.{write_row, ReadsBack};
ghost use Rattle.economizer_controller.specs.Verdict.{economizer_verdict};
ghost use Rattle.economizer_controller.specs.Step.{economizer_signals};
ghost use Rattle.econ_words.specs.Economizer.{economizer_of};
ghost use Rattle.econ_lines.specs.Econ.{econ_kind};
ghost use Rattle.econ_words.specs.EconomizerRow.{economizer_row_of};
ghost use Rattle.woldgrater_service.specs.Line.{LineLeft};
ghost use Rattle.woldgrater_service.specs.Shown.{economizer_shown};

use econ_words::economizer::EconomizerWords;
use econ_words::economizer_row::EconomizerRowWords;
use woldgrater_service::econ::EconomizerShown;
use woldgrater_service::line::LineGiven;

// What the commands of a row would be worked from. The state does not move.
#[unsafe(no_mangle)]
pub extern "C" fn woldgrater_econ_signals(
    state: EconomizerWords,
    row: EconomizerRowWords,
) -> EconomizerShown
    ensures { result ≡ economizer_shown (economizer_verdict (economizer_of state) (economizer_row_of row))
        (economizer_signals (economizer_of state) (economizer_row_of row)) }
{
    woldgrater_service::econ::woldgrater_econ_signals(state, row)
}

// Writes the line of a row, with its newline, at the start of out: refused with 1 where a number is not finite, or else with 10 where it does not fit, and no
// byte changes then. What is written reads back as the row.
#[unsafe(no_mangle)]
pub extern "C" fn woldgrater_econ_line(row: EconomizerRowWords, out: &mut [u8]) -> LineGiven
    ensures line_left { LineLeft (write_row econ_kind (economizer_row_of row) out.old 0) result out.new }
    ensures reads_back { ReadsBack econ_kind (economizer_row_of row) }
{
    woldgrater_service::econ::woldgrater_econ_line(row, out)
}
