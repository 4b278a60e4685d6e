// Written by tools/words from what freeze protection has.
// The economizer: what a row's commands would be worked from, for a display or a logger, and the line of a row.
ghost use Rattle.std.specs.Prelude.{◌≡◌};
ghost use Rattle.row_writer.specs.Writing.{write_row, ReadsBack};
ghost use Rattle.economizer_controller.specs.Verdict.{economizer_verdict};
ghost use Rattle.economizer_controller.specs.Step.{economizer_signals};
ghost use Rattle.econ_words.specs.Economizer.{economizer_of};
ghost use Rattle.econ_lines.specs.Econ.{econ_kind};
ghost use Rattle.econ_words.specs.EconomizerRow.{economizer_row_of};
ghost use Rattle.woldgrater_service.specs.Line.{LineLeft};
ghost use Rattle.woldgrater_service.specs.Shown.{economizer_shown};

use crate::line::LineGiven;
use econ_lines::econ::EconLines;
use econ_words::economizer::EconomizerWords;
use econ_words::economizer_row::EconomizerRowWords;
use econ_words::economizer_signals::EconomizerSignalsWords;
use economizer_controller::step::economizer_signals;
use economizer_controller::types::{EconomizerRow, EconomizerState};
use economizer_controller::verdict::economizer_verdict;
use row_writer::write_row;
use woldgrater::answered::Answered;

// A record for each sequence, since an export takes none that is generic.

// The status of a row, and what the commands of an accepted one are worked from.
#[repr(C)]
#[derive(Clone, Copy)]
pub struct EconomizerShown {
    // 0, or the number of the refusal: C has no Result.
    pub status: u64,
    pub signals: EconomizerSignalsWords,
}

// What the commands of a row would be worked from. The state does not move.
#[tactic(auto, unfolding(crate::specs::Shown::economizer_shown))]
pub fn woldgrater_econ_signals(state: EconomizerWords, row: EconomizerRowWords) -> EconomizerShown
    ensures { result ≡ economizer_shown (economizer_verdict (economizer_of state) (economizer_row_of row))
        (economizer_signals (economizer_of state) (economizer_row_of row)) }
{
    let held = EconomizerState::from(state);
    let sampled = EconomizerRow::from(row);
    let shown = economizer_verdict(held, sampled).map(|()| economizer_signals(held, sampled));
    let signals = Answered::from(shown);
    EconomizerShown {
        status: signals.status,
        signals: signals.commands,
    }
}

// Writes the line of a row, with its newline, at the start of out: refused with 1 where a number is not finite, or else with 10 where it does not fit, and no
// byte changes then. What is written reads back as the row.
pub fn woldgrater_econ_line(row: EconomizerRowWords, out: &mut [u8]) -> LineGiven
    ensures line_left { LineLeft (write_row econ_kind (economizer_row_of row) out.old 0) result out.new }
    ensures reads_back { ReadsBack econ_kind (economizer_row_of row) }
{
    LineGiven::from(write_row::<EconLines, _, _>(out, 0, EconomizerRow::from(row)))
}
