// A stream of bytes as lines, whatever the chunks that it comes in: the end of a line in a chunk, and the bytes kept of a line that has not ended.
#![tactic(auto)]

ghost use Rattle.std.specs.Prelude.{◌≡◌, ◌+◌, ◌≤◌, length, drop};
ghost use Rattle.line_stream.specs.Lines.{before_newline, Kept};

use memchr::memchr;

// Helper. The place of the first newline in a chunk from `from` on, or the chunk's end where there is none.
#[tactic(auto, using(crate::proofs::Turns::newline_from))]
pub fn line_end(chunk: &[u8], from: usize) -> usize
    requires { from ≤ length chunk.now }
    ensures { result ≡ from + before_newline (drop from chunk.now) }
{
    let rest = &chunk[from..];
    from + memchr(b'\n', rest).unwrap_or(rest.len())
}

// Helper. Keeps more bytes of a line after the `len` that are kept of it, up to 256 in all, and gives their number: fixed memory, which the caller holds.
#[tactic(auto, using(crate::proofs::Keeping::kept))]
pub fn keep(line: &mut [u8; 256], len: usize, more: &[u8]) -> usize
    requires { len ≤ 256 }
    ensures { Kept line.old len more.now line.new result }
{
    let n = more.len().min(256 - len);
    line[len..len + n].copy_from_slice(&more[..n]);
    len + n
}
