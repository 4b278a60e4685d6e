// The reader: chunks of bytes in, bytes out. The line buffer, the output and the arrays of the relief window are lent, one by one, as the C interface lends them:
// memory is fixed, so the buffer has a number beside it of the bytes kept.
ghost use Rattle.std.specs.Prelude.{◌≡◌, ◌≤◌, length, take};
ghost use Rattle.columns.specs.Column.{Wrote};
ghost use Rattle.row_kinds.specs.Reader.{last_line};
ghost use Rattle.row_kinds.specs.Rows.{carried, fresh_of, with_sequence, Beginning, Passing, Keeping, Ended, LineAnswered, LinesPassed, Lent, FedTo, Finished};

use columns::line::write_status_line;
use economizer_controller::step::economizer_fresh;
use freeze_protection::step::freeze_fresh;
use line_stream::{keep, line_end};
use refusals::Refusal;
use relief_fan_group::lent::held_fresh;
use row_kinds::kind::{Kind, Phase, phase_after};
use row_kinds::rows::{Passed, pass_rows};
use row_kinds::types::{Fed, RowReader};

// Rows of a kind from a fresh state. The states of the other kinds stay. A `match`, since the first line of the input names the kind.
#[tactic(auto, unfolding(relief_fan_group::specs::Step::relief_fresh, moving_average::specs::State::moving_average_new))]
fn start(kind: Kind, times: &mut [f64; 512], integrals: &mut [f64; 512], reader: &mut RowReader)
    ensures { carried reader.new times.new integrals.new
        ≡ with_sequence (fresh_of kind) (carried reader.old times.old integrals.old) }
{
    reader.phase = Phase::Rows(kind);
    match kind {
        Kind::Freeze => reader.freeze = freeze_fresh(),
        Kind::Relief => {
            *times = [0.0; 512];
            *integrals = [0.0; 512];
            reader.relief = held_fresh();
        }
        Kind::Econ => reader.econ = economizer_fresh(),
    }
}

// A first line that names no kind: 6, and the reader reads no more.
#[tactic(auto, unfolding(refusals::specs::Refusals::refusal_number))]
fn stop(out: &mut [u8], reader: &mut RowReader) -> usize
    requires { 22 ≤ length out.old }
    ensures { Ended reader.old out.old reader.new out.new result }
{
    reader.phase = Phase::Stopped;
    write_status_line(out, 0, Refusal::NoKind.number())
}

// The first line, without its newline: rows of its kind from a fresh state, or 6 where it names none. It is kept a call of its own, since `feed` would hold its
// states on the stack for every chunk.
#[inline(never)]
fn begin(
    line: &[u8],
    out: &mut [u8],
    times: &mut [f64; 512],
    integrals: &mut [f64; 512],
    reader: &mut RowReader,
) -> usize
    requires { Beginning reader.old out.old }
    ensures { LineAnswered (carried reader.old times.old integrals.old)
        line.now out.old
        (carried reader.new times.new integrals.new) out.new result }
{
    match phase_after(line) {
        Phase::Rows(kind) => {
            start(kind, times, integrals, reader);
            0
        }
        Phase::First | Phase::Stopped => stop(out, reader),
    }
}

// The lines of a text after the first of the input; nothing is said of them once the reader has stopped. A `match`, since the input leads the reader from phase to
// phase.
fn pass(
    text: &[u8],
    out: &mut [u8],
    times: &mut [f64; 512],
    integrals: &mut [f64; 512],
    reader: &mut RowReader,
    first: usize,
    at: usize,
) -> Passed
    requires { Passing reader.old text.now out.old at }
    ensures { LinesPassed (carried reader.old times.old integrals.old)
        text.now first out.old at
        (carried reader.new times.new integrals.new) result.rest out.new result.at }
{
    match reader.phase {
        Phase::Rows(kind) => pass_rows(text, out, times, integrals, reader, kind, first, at),
        Phase::First | Phase::Stopped => Passed {
            rest: text.len(),
            at,
        },
    }
}

// The line that ends the bytes kept of it, from its buffer: the place after its answer. At most 255 bytes of it are taken, so that a byte is left in the buffer
// where its newline would be. No kind has a line as long.
fn kept_line(
    line: &[u8; 256],
    len: usize,
    out: &mut [u8],
    times: &mut [f64; 512],
    integrals: &mut [f64; 512],
    reader: &mut RowReader,
) -> usize
    requires { Keeping len out.old }
    ensures { LineAnswered (carried reader.old times.old integrals.old)
        (take len line.now) out.old
        (carried reader.new times.new integrals.new) out.new result }
{
    if reader.phase.first() {
        return begin(&line[..len], out, times, integrals, reader);
    }
    let n = len.min(255);
    pass(&line[..n + 1], out, times, integrals, reader, n, 0).at
}

// Helper. Feeds a chunk to the reader, after the `had` bytes kept of a line: answers the lines that end in it, and keeps the part of a line that is left.
pub fn feed(
    chunk: &[u8],
    line: &mut [u8; 256],
    out: &mut [u8],
    times: &mut [f64; 512],
    integrals: &mut [f64; 512],
    reader: &mut RowReader,
    had: usize,
) -> Fed
    requires { Lent chunk.now had out.old }
    ensures { FedTo (carried reader.old times.old integrals.old)
        (take had line.old) chunk.now out.old
        (carried reader.new times.new integrals.new) line.new result.len
        out.new result.sent }
{
    if reader.phase.stopped() {
        return Fed { len: 0, sent: 0 };
    }
    let j = line_end(chunk, 0);
    let len = keep(line, had, &chunk[..j]);
    if j < chunk.len() {
        let at = kept_line(line, len, out, times, integrals, reader);
        let i = j + 1;
        let end = line_end(chunk, i) - i;
        let rest = pass(&chunk[i..], out, times, integrals, reader, end, at);
        let from = i + rest.rest;
        let kept = keep(line, 0, &chunk[from..]);
        return Fed {
            len: kept,
            sent: rest.at,
        };
    }
    Fed { len, sent: 0 }
}

// Bytes after the last newline are one refused line.
#[tactic(auto, unfolding(refusals::specs::Refusals::refusal_number))]
fn last_line(part: &[u8], out: &mut [u8]) -> usize
    requires { 22 ≤ length out.old }
    ensures { Wrote out.old 0 (last_line part.now) result out.new result × (result ≤ 22) }
{
    if part.is_empty() {
        return 0;
    }
    write_status_line(out, 0, Refusal::BadlyFormed.number())
}

// Helper. The end of the input: what is said of the bytes kept of a line, at the start of the output. A `match`, since the phase is what the input has led to.
#[tactic(auto, unfolding(refusals::specs::Refusals::refusal_number))]
pub fn finish(reader: &RowReader, part: &[u8], out: &mut [u8]) -> usize
    requires { 22 ≤ length out.old }
    ensures { Finished reader.now part.now out.old out.new result × (result ≤ 22) }
{
    match reader.phase {
        Phase::First => write_status_line(out, 0, Refusal::NoKind.number()),
        Phase::Rows(_) => last_line(part, out),
        Phase::Stopped => 0,
    }
}
