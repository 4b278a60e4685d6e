// What a caller gets that has the line of a row written.
ghost use Rattle.std.specs.Prelude.{◌≡◌};
ghost use Rattle.woldgrater_service.specs.Line.{line_given};

use refusals::Refusal;

// The status, and the number of bytes written.
#[repr(C)]
#[derive(Clone, Copy)]
pub struct LineGiven {
    // 0, or the number of the refusal: C has no Result.
    pub status: u64,
    pub len: usize,
}

impl From<Result<usize, Refusal>> for LineGiven {
    ghost from_gives = { λ written given. given ≡ line_given written };

    #[tactic(auto, unfolding(crate::specs::Line::line_given))]
    fn from(written: Result<usize, Refusal>) -> Self {
        match written {
            Ok(end) => LineGiven {
                status: 0,
                len: end,
            },
            Err(refusal) => LineGiven {
                status: refusal.number(),
                len: 0,
            },
        }
    }
}
