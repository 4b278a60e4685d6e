// A whole row file in one call.
ghost use Rattle.std.specs.Prelude.{◌≤◌, length};
ghost use Rattle.woldgrater_service.specs.Play.{room, Played, PlayedOrRefused};

use crate::room::{STATUS_LENGTH, has_room};
use row_kinds::kind::Phase;
use row_kinds::types::fresh_at;
use row_reader::feed::{feed, finish};

// A whole row file, from a fresh start, into an output with room for it.
fn play(rows: &[u8], out: &mut [u8]) -> usize
    requires { room (length rows.now) ≤ length out.old }
    ensures { Played rows.now out.old out.new result }
{
    let mut line = [0u8; 256];
    let mut times = [0.0; 512];
    let mut integrals = [0.0; 512];
    let mut reader = fresh_at(Phase::First);
    let answers = STATUS_LENGTH * (256 + rows.len());
    let fed = feed(
        rows,
        &mut line,
        &mut out[..answers],
        &mut times,
        &mut integrals,
        &mut reader,
        0,
    );
    let said = finish(&reader, &line[..fed.len], &mut out[fed.sent..]);
    fed.sent + said
}

// Plays a whole row file from a fresh start: its output at the start of out, and its length; or usize::MAX, and nothing written, where out is too
// small.
pub fn woldgrater_play(rows: &[u8], out: &mut [u8]) -> usize
    ensures { PlayedOrRefused rows.now out.old out.new result }
{
    if has_room(out.len(), rows.len()) {
        return play(rows, out);
    }
    // C has no Option: no output has this length.
    usize::MAX
}
