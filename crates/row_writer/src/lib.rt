// What a kind of rows is to its reader and its writer; and a row written as its line, the whole line with its newline, or nothing.
#![tactic(auto)]

ghost use Rattle.std.specs.Prelude.{◌≡◌, ◌≤◌, ◌+◌, ltb, not};
ghost use Rattle.columns.specs.Line.{words_line};
ghost use Rattle.row_writer.specs.Writing.{write_text, write_row, LeftBy, ReadsBack};

use crate::lines::RowLines;
use columns::forms::Form;
use columns::line::write_line;
use refusals::Refusal;

pub mod lines; // what a kind of rows is

// Whether a buffer of `len` bytes has n from the place `at` on.
fn has_room(len: usize, at: usize, n: usize) -> bool
    ensures { result ≡ not (ltb len (at + n)) }
{
    at <= len && n <= len - at
}

// Helper. Writes words as a line, with its newline, from the place `at` on, and gives the place after it. Where a number of them is not finite it is refused (1), or
// else where it does not fit (10), and no byte changes then.
#[tactic(auto, using(columns::proofs::Lines::length_words_line), unfolding(crate::specs::Writing::write_text))]
pub fn write_words<const N: usize, const M: usize>(
    out: &mut [u8],
    at: usize,
    forms: &[Form; N],
    words: &[u64; M],
    finite: bool,
) -> Result<usize, Refusal>
    requires { (N ≤ 12) × (M ≤ N) }
    ensures { LeftBy (write_text finite (words_line forms.now words.now) out.old at) result out.new }
{
    if !finite {
        return Err(Refusal::NotFinite);
    }
    if !has_room(out.len(), at, 21 * M + 1) {
        return Err(Refusal::NoRoom);
    }
    Ok(write_line(out, at, forms, words))
}

// Writes the line of a row, with its newline, from the place `at` on, and gives the place after it. A number that is not finite is refused (1), or else a line
// that does not fit (10), and no byte changes then. What is written reads back as the row. The time is not looked at: what the sequence would refuse for it is
// written too.
pub fn write_row<K: RowLines<N, M>, const N: usize, const M: usize>(
    out: &mut [u8],
    at: usize,
    row: K::Row,
) -> Result<usize, Refusal>
    ensures left_by { LeftBy (write_row K.kind row out.old at) result out.new }
    ensures reads_back { ReadsBack K.kind row }
{
    write_words(out, at, &K::ROW, &K::row_words(row), K::is_finite(row))
}
