// Written by tools/words from the library woldgrater_service: an export says its clauses itself, and takes no generic record.
// A row file chunk by chunk. The caller holds what is carried from call to call: the state, the bytes kept of a line and the arrays of the relief window.
ghost use Rattle.std.specs.Prelude.{◌≡◌};
ghost use Rattle.block_words.specs.Flags.{flag_word};
ghost use Rattle.woldgrater_service.specs.Chunks.{started, stopped_in, memory, FedOrRefused, EndedOrRefused};

use woldgrater_service::chunks::{Fed, State};

// The state before the first chunk.
#[unsafe(no_mangle)]
pub extern "C" fn woldgrater_start() -> State
    ensures { result ≡ started }
{
    woldgrater_service::chunks::woldgrater_start()
}

// Feeds the next chunk of a row file: the answers to the lines that end in it, at the start of out; or usize::MAX, and nothing changed, where out is too
// small.
#[unsafe(no_mangle)]
pub extern "C" fn woldgrater_feed(
    chunk: &[u8],
    out: &mut [u8],
    line: &mut [u8; 256],
    times: &mut [f64; 512],
    integrals: &mut [f64; 512],
    state: State,
) -> Fed
    ensures fed_or_refused { FedOrRefused (memory state line.old times.old
        integrals.old) chunk.now out.old
        (memory result.state line.new times.new integrals.new) out.new
        result.sent }
    ensures stopped_value { result.stopped ≡ flag_word (stopped_in result.state) }
{
    woldgrater_service::chunks::woldgrater_feed(chunk, out, line, times, integrals, state)
}

// Ends a row file: what is said of bytes after the last newline, or of a file without a first line, at the start of out; or usize::MAX, and nothing
// written, where out is too small.
#[unsafe(no_mangle)]
pub extern "C" fn woldgrater_finish(out: &mut [u8], line: &[u8; 256], state: State) -> usize
    ensures { EndedOrRefused state line.now out.old out.new result }
{
    woldgrater_service::chunks::woldgrater_finish(out, line, state)
}
