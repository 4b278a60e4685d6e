// The reader on arrays that a caller lends, of which nothing is known but what their types say.
// They come one by one, as C gives them, with `kept` beside the buffer of a line: memory is fixed, and C holds it.
ghost use Rattle.std.specs.Prelude.{◌≡◌, ◌≤◌, length, min, take};
ghost use Rattle.row_kinds.specs.Rows.{carried, FedTo, Finished};
ghost use Rattle.woldgrater_service.specs.Play.{status_length, room};

use row_kinds::types::{Fed, RowReader};
use row_reader::feed::{feed, finish};

// The bytes kept of a line: all of its buffer where a caller says more.
fn kept_of(kept: usize) -> usize
    ensures { result ≡ min kept 256 }
{
    kept.min(256)
}

// Helper. A chunk, into an output with room for its answers.
#[tactic(auto, using(std::proofs::lemmas::List::take_min))]
pub fn feed_lent(
    chunk: &[u8],
    out: &mut [u8],
    line: &mut [u8; 256],
    times: &mut [f64; 512],
    integrals: &mut [f64; 512],
    reader: &mut RowReader,
    kept: usize,
) -> Fed
    requires { room (length chunk.now) ≤ length out.old }
    ensures { FedTo (carried reader.old times.old integrals.old)
        (take kept line.old) chunk.now out.old
        (carried reader.new times.new integrals.new) line.new result.len
        out.new result.sent }
{
    feed(chunk, line, out, times, integrals, reader, kept_of(kept))
}

// Helper. The end of a row file, into an output with room for a status line.
pub fn finish_lent(out: &mut [u8], line: &[u8; 256], reader: &RowReader, kept: usize) -> usize
    requires { status_length ≤ length out.old }
    ensures { Finished reader.now (take kept line.now) out.old out.new result }
{
    finish(reader, &line[..kept_of(kept)], out)
}
