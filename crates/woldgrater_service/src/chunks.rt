// A row file chunk by chunk. The caller holds what is carried from call to call: the state, the bytes kept of a line and the arrays of the relief window.
// The arrays are lent one by one, as C gives them.
ghost use Rattle.std.specs.Prelude.{◌≡◌, ◌≤◌, length};
ghost use Rattle.woldgrater_service.specs.Play.{status_length, room};
ghost use Rattle.block_words.specs.Flags.{flag_word};
ghost use Rattle.woldgrater_service.specs.Chunks.{started, stopped_in, memory, FedTo, FedOrRefused, EndedBy, EndedOrRefused};

use crate::lent::{feed_lent, finish_lent};
use crate::room::{STATUS_LENGTH, has_room};
use reader_words::row_reader::RowReaderWords;
use row_kinds::kind::Phase;
use row_kinds::types::{RowReader, fresh_at};

// The reader, and the number of bytes kept of a line that has not ended.
#[repr(C)]
#[derive(Clone, Copy)]
pub struct State {
    pub reader: RowReaderWords,
    // Apart from those bytes: their buffer, of fixed length, is held by C.
    pub kept: usize,
}

// The state after a chunk, and the number of bytes to be written.
#[derive(Clone, Copy)]
pub struct ChunkFed {
    pub state: State,
    pub sent: usize,
}

// The same, and 1 where the reader has stopped: it reads no more.
#[repr(C)]
#[derive(Clone, Copy)]
pub struct Fed {
    pub state: State,
    pub sent: usize,
    // 1 or 0: a flag of C.
    pub stopped: u64,
}

// The state before the first chunk.
#[tactic(auto, unfolding(crate::specs::Chunks::started))]
pub fn woldgrater_start() -> State
    ensures { result ≡ started }
{
    State {
        reader: RowReaderWords::from(fresh_at(Phase::First)),
        kept: 0,
    }
}

// A chunk, into an output with room for its answers.
fn feed_chunk(
    chunk: &[u8],
    out: &mut [u8],
    line: &mut [u8; 256],
    times: &mut [f64; 512],
    integrals: &mut [f64; 512],
    state: State,
) -> ChunkFed
    requires { room (length chunk.now) ≤ length out.old }
    ensures { FedTo (memory state line.old times.old integrals.old)
        chunk.now out.old
        (memory result.state line.new times.new integrals.new) out.new
        result.sent }
{
    let mut reader = RowReader::from(state.reader);
    let fed = feed_lent(chunk, out, line, times, integrals, &mut reader, state.kept);
    ChunkFed {
        state: State {
            reader: RowReaderWords::from(reader),
            kept: fed.len,
        },
        sent: fed.sent,
    }
}

// Whether the reader of a state has stopped.
#[tactic(auto, unfolding(block_words::specs::Flags::flag_word))]
fn stopped_word(state: State) -> u64
    ensures { result ≡ flag_word (stopped_in state) }
{
    u64::from(Phase::from(state.reader.phase).stopped())
}

// Feeds the next chunk of a row file: the answers to the lines that end in it, at the start of out; or usize::MAX, and nothing changed, where out is too
// small.
pub fn woldgrater_feed(
    chunk: &[u8],
    out: &mut [u8],
    line: &mut [u8; 256],
    times: &mut [f64; 512],
    integrals: &mut [f64; 512],
    state: State,
) -> Fed
    ensures fed_or_refused { FedOrRefused (memory state line.old times.old
        integrals.old) chunk.now out.old
        (memory result.state line.new times.new integrals.new) out.new
        result.sent }
    ensures stopped_value { result.stopped ≡ flag_word (stopped_in result.state) }
{
    if has_room(out.len(), chunk.len()) {
        let fed = feed_chunk(chunk, out, line, times, integrals, state);
        return Fed {
            state: fed.state,
            sent: fed.sent,
            stopped: stopped_word(fed.state),
        };
    }
    Fed {
        state,
        // C has no Option: no output has this length.
        sent: usize::MAX,
        stopped: stopped_word(state),
    }
}

// The end of a row file, into an output with room for a status line.
fn end_file(out: &mut [u8], line: &[u8; 256], state: State) -> usize
    requires { status_length ≤ length out.old }
    ensures { EndedBy state line.now out.old out.new result }
{
    finish_lent(out, line, &RowReader::from(state.reader), state.kept)
}

// Ends a row file: what is said of bytes after the last newline, or of a file without a first line, at the start of out; or usize::MAX, and nothing
// written, where out is too small.
pub fn woldgrater_finish(out: &mut [u8], line: &[u8; 256], state: State) -> usize
    ensures { EndedOrRefused state line.now out.old out.new result }
{
    if out.len() < STATUS_LENGTH {
        // C has no Option: no output has this length.
        return usize::MAX;
    }
    end_file(out, line, state)
}
