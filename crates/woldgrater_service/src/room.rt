// The room that is asked of an output.
ghost use Rattle.std.specs.Prelude.{◌≡◌, leb};
ghost use Rattle.woldgrater_service.specs.Play.{room};

// An answer has at most 22 bytes, those of a status line, for each byte of its line and for its newline.
pub const STATUS_LENGTH: usize = 22;

// The bytes of a line that may have been kept before, and one for the end of the file.
pub const BYTES_BEFORE: usize = 257;

// Helper. Whether an output of so many bytes has room for the answers to so many bytes of a row file.
pub fn has_room(out: usize, bytes: usize) -> bool
    ensures { result ≡ leb (room bytes) out }
{
    (out / STATUS_LENGTH)
        .checked_sub(BYTES_BEFORE)
        .is_some_and(|lines| bytes <= lines)
}
