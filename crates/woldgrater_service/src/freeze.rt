// Freeze protection: what a row's commands would be worked from, for a display or a logger, and the line of a row.
ghost use Rattle.std.specs.Prelude.{◌≡◌};
ghost use Rattle.row_writer.specs.Writing.{write_row, ReadsBack};
ghost use Rattle.freeze_protection.specs.Verdict.{freeze_verdict};
ghost use Rattle.freeze_protection.specs.Signals.{freeze_signals};
ghost use Rattle.freeze_protection.specs.Left.{freeze_left};
ghost use Rattle.freeze_words.specs.Freeze.{freeze_of};
ghost use Rattle.freeze_lines.specs.Freeze.{freeze_kind};
ghost use Rattle.freeze_words.specs.FreezeRow.{freeze_row_of};
ghost use Rattle.woldgrater_service.specs.Line.{LineLeft};
ghost use Rattle.woldgrater_service.specs.Shown.{freeze_shown};

use crate::line::LineGiven;
use freeze_lines::freeze::FreezeLines;
use freeze_protection::left::freeze_left;
use freeze_protection::signals::freeze_signals;
use freeze_protection::types::{FreezeRow, FreezeState};
use freeze_protection::verdict::freeze_verdict;
use freeze_words::freeze::FreezeWords;
use freeze_words::freeze_left::FreezeLeftWords;
use freeze_words::freeze_row::FreezeRowWords;
use freeze_words::freeze_signals::FreezeSignalsWords;
use row_writer::write_row;
use woldgrater::answered::Answered;

// A record for each sequence, since an export takes none that is generic.

// The status of a row, and what the commands of an accepted one are worked from.
// Beside it the seconds left on its timers.
#[repr(C)]
#[derive(Clone, Copy)]
pub struct FreezeShown {
    // 0, or the number of the refusal: C has no Result.
    pub status: u64,
    pub signals: FreezeSignalsWords,
    pub left: FreezeLeftWords,
}

// What the commands of a row would be worked from. The state does not move.
// Beside it what is left on each timer.
#[tactic(auto, unfolding(crate::specs::Shown::freeze_shown))]
pub fn woldgrater_freeze_signals(state: FreezeWords, row: FreezeRowWords) -> FreezeShown
    ensures { result ≡ freeze_shown (freeze_verdict (freeze_of state) (freeze_row_of row))
        (freeze_left (freeze_of state) (freeze_signals (freeze_of state) (freeze_row_of row)))
        (freeze_signals (freeze_of state) (freeze_row_of row)) }
{
    let held = FreezeState::from(state);
    let sampled = FreezeRow::from(row);
    let shown = freeze_verdict(held, sampled).map(|()| freeze_signals(held, sampled));
    let left = Answered::from(shown.map(|signals| freeze_left(held, signals)));
    let signals = Answered::from(shown);
    FreezeShown {
        status: signals.status,
        signals: signals.commands,
        left: left.commands,
    }
}

// Writes the line of a row, with its newline, at the start of out: refused with 1 where a number is not finite, or else with 10 where it does not fit, and no
// byte changes then. What is written reads back as the row.
pub fn woldgrater_freeze_line(row: FreezeRowWords, out: &mut [u8]) -> LineGiven
    ensures line_left { LineLeft (write_row freeze_kind (freeze_row_of row) out.old 0) result out.new }
    ensures reads_back { ReadsBack freeze_kind (freeze_row_of row) }
{
    LineGiven::from(write_row::<FreezeLines, _, _>(out, 0, FreezeRow::from(row)))
}
