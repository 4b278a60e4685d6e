// The lines of a kind of rows in a text, answered: one loop for any kind. The output is lent, and so are the arrays of the relief window, one by one, as the C
// interface lends them.
ghost use Rattle.std.specs.Prelude.{◌+◌, ◌*◌, ◌≤◌, length};
ghost use Rattle.line_stream.specs.Lines.{Answered};
ghost use Rattle.line_stream.specs.RowKind.{line_answered};
ghost use Rattle.row_writer.specs.Lines.{WindowLeft};
ghost use Rattle.row_kinds.specs.Rows.{carried, PassingRows, LinesAnswered, LinesPassed};

use crate::kind::Kind;
use crate::types::RowReader;
use columns::forms::read_columns;
use columns::line::{write_line, write_status_line};
use econ_lines::econ::EconLines;
use freeze_lines::freeze::FreezeLines;
use line_stream::line_end;
use refusals::Refusal;
use relief_lines::relief::ReliefLines;
use row_writer::lines::RowLines;

// The place of the bytes after some lines, and the place after their answers.
#[derive(Clone, Copy)]
pub struct Passed {
    pub rest: usize,
    pub at: usize,
}

// Answers a line in the bytes from `at` on, with 5 where it is badly formed, and gives the place after its answer.
#[tactic(auto, unfolding(line_stream::specs::RowKind::line_answered, line_stream::specs::RowKind::read_answered, line_stream::specs::RowKind::row_line, refusals::specs::Refusals::refusal_number, columns::specs::Forms::read_line))]
fn answer_line<K: RowLines<N, M>, const N: usize, const M: usize>(
    line: &[u8],
    out: &mut [u8],
    times: &mut [f64; 512],
    integrals: &mut [f64; 512],
    state: &mut K::State,
    at: usize,
) -> usize
    requires { at + 22 * (length line.now + 1) ≤ length out.old }
    ensures answered { Answered (line_answered K.kind (K.held state.old times.old integrals.old) line.now)
        out.old at (K.held state.new times.new integrals.new) out.new result }
    ensures window { WindowLeft K.has_window times.old integrals.old times.new integrals.new }
{
    let Some(words) = read_columns(line, &K::ROW) else {
        return write_status_line(out, at, Refusal::BadlyFormed.number());
    };
    match K::step(state, times, integrals, K::row_of(&words)) {
        Ok(commands) => write_line(out, at, &K::ANSWER, &K::command_words(commands)),
        Err(refusal) => write_status_line(out, at, refusal.number()),
    }
}

// Answers the lines of a text in the bytes from `at` on. The first line ends at the place `first`.
#[tactic(auto, using(line_stream::proofs::Turns::start, line_stream::proofs::Turns::answer_fits, line_stream::proofs::Turns::turn, crate::proofs::RowLines::window_on))]
fn answer_lines<K: RowLines<N, M>, const N: usize, const M: usize>(
    text: &[u8],
    out: &mut [u8],
    times: &mut [f64; 512],
    integrals: &mut [f64; 512],
    state: &mut K::State,
    first: usize,
    at: usize,
) -> Passed
    requires { at + 22 * length text.now ≤ length out.old }
    ensures answered { LinesAnswered (line_answered K.kind) (K.held state.old times.old integrals.old)
        text.now first out.old at
        (K.held state.new times.new integrals.new) result.rest out.new result.at }
    ensures window { WindowLeft K.has_window times.old integrals.old times.new integrals.new }
{
    // From newline to newline, as `line_end` finds them: `split` would look at each byte by itself.
    // The state is held apart while lines are answered: one that is lent might overlap with what else is lent, for all that the compiler knows. A relief row takes 4,738
    // instructions so, in place of 5,676, and a freeze row 3,235 in place of 3,495.
    let mut held = *state;
    let mut sent = at;
    let mut i: usize = 0;
    let mut j = first;
    while j < text.len() {
        sent = answer_line::<K, _, _>(&text[i..j], out, times, integrals, &mut held, sent);
        i = j + 1;
        j = line_end(text, i);
    }
    *state = held;
    Passed { rest: i, at: sent }
}

// Helper. Answers the lines of a text by their kind. The first line ends at the place `first`. Only the state of that kind is touched. A `match`, since the first
// line of the input names the kind.
pub fn pass_rows(
    text: &[u8],
    out: &mut [u8],
    times: &mut [f64; 512],
    integrals: &mut [f64; 512],
    reader: &mut RowReader,
    kind: Kind,
    first: usize,
    at: usize,
) -> Passed
    requires { PassingRows kind reader.old text.now out.old at }
    ensures { LinesPassed (carried reader.old times.old integrals.old)
        text.now first out.old at
        (carried reader.new times.new integrals.new) result.rest out.new result.at }
{
    match kind {
        Kind::Freeze => {
            let freeze = &mut reader.freeze;
            answer_lines::<FreezeLines, _, _>(text, out, times, integrals, freeze, first, at)
        }
        Kind::Relief => {
            let relief = &mut reader.relief;
            answer_lines::<ReliefLines, _, _>(text, out, times, integrals, relief, first, at)
        }
        Kind::Econ => {
            let econ = &mut reader.econ;
            answer_lines::<EconLines, _, _>(text, out, times, integrals, econ, first, at)
        }
    }
}
