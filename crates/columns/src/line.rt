// The end of a line, a line that holds a status alone, and a line of words.
ghost use Rattle.std.specs.Prelude.{◌+◌, ◌*◌, ◌≤◌, ◌<◌, length};
ghost use Rattle.columns.specs.Column.{Wrote};
ghost use Rattle.columns.specs.Line.{end_of_line, status_line, words_line};

use crate::column::write_column;
use crate::forms::{Form, write_columns};

// Ends a line: writes a newline at a place, and gives the place after it.
#[tactic(auto, using(crate::proofs::Writing::byte_over))]
fn end_line(out: &mut [u8], at: usize) -> usize
    requires { at < length out.old }
    ensures { Wrote out.old at end_of_line 1 out.new result }
{
    out[at] = b'\n';
    at + 1
}

// Helper. Writes the line of a status alone: the answer to a line or row that is refused.
#[tactic(auto, unfolding(crate::specs::Line::status_line))]
pub fn write_status_line(out: &mut [u8], at: usize, status: u64) -> usize
    requires { at + 22 ≤ length out.old }
    ensures { Wrote out.old at (status_line status) 22 out.new result }
{
    let end = write_column(out, at, false, status);
    end_line(out, end)
}

// Helper. Writes the line of words, as far as they go, with its newline, and gives the place after it.
#[tactic(auto, unfolding(crate::specs::Line::words_line))]
pub fn write_line<const N: usize, const M: usize>(
    out: &mut [u8],
    at: usize,
    forms: &[Form; N],
    words: &[u64; M],
) -> usize
    requires { (M ≤ N) × (at + 21 * M < length out.old) }
    ensures { Wrote out.old at (words_line forms.now words.now) (21 * M + 1) out.new result }
{
    let end = write_columns(out, at, forms, words);
    end_line(out, end)
}
