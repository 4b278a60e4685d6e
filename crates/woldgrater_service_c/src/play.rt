// Written by tools/words from the library woldgrater_service: an export says its clauses itself, and takes no generic record.
// A whole row file in one call.
ghost use Rattle.woldgrater_service.specs.Play.{PlayedOrRefused};

// Plays a whole row file from a fresh start: its output at the start of out, and its length; or usize::MAX, and nothing written, where out is too
// small.
#[unsafe(no_mangle)]
pub extern "C" fn woldgrater_play(rows: &[u8], out: &mut [u8]) -> usize
    ensures { PlayedOrRefused rows.now out.old out.new result }
{
    woldgrater_service::play::woldgrater_play(rows, out)
}
