// What a caller gets of a row's answer.
ghost use Rattle.std.specs.Prelude.{◌≡◌, MatchResult};
ghost use Rattle.refusals.specs.Refusals.{refusal_number};

use refusals::Refusal;

// The status of a row, and the commands of an accepted one: what the records that C gets are filled from.
#[derive(Clone, Copy)]
pub struct Answered<W> {
    // 0, or the number of the refusal: C has no Result.
    pub status: u64,
    pub commands: W,
}

// Status 0 and the commands of an accepted row as words; the number of a refused one's refusal, and the words that are given by default.
impl<C, W: From<C> + Default> From<Result<C, Refusal>> for Answered<W> {
    ghost from_gives = { λ answer a. MatchResult answer (λ commands. (a.status ≡ 0) × W.from_gives commands a.commands)
        (λ refusal. (a.status ≡ refusal_number refusal) × W.is_default a.commands) };

    #[inline(always)]
    fn from(answer: Result<C, Refusal>) -> Self {
        match answer {
            Ok(commands) => Answered {
                status: 0,
                commands: W::from(commands),
            },
            Err(refusal) => Answered {
                status: refusal.number(),
                commands: W::default(),
            },
        }
    }
}
