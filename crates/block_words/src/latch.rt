// `LatchState` of logical as words. Written by tools/words.
ghost use Rattle.std.specs.Prelude.{◌≡◌};
ghost use Rattle.block_words.specs.Latch.{latch_words, latch_of};

use logical::latch::LatchState;

#[repr(C)]
#[derive(Clone, Copy)]
pub struct LatchWords {
    pub held: u64,
    pub prev_u: u64,
}

impl From<LatchState> for LatchWords {
    ghost from_gives = { λ s w. w ≡ latch_words s };

    #[tactic(auto, unfolding(crate::specs::Latch::latch_words, crate::specs::Flags::flag_word))]
    #[inline(always)]
    fn from(value: LatchState) -> Self {
        LatchWords {
            held: u64::from(value.held),
            prev_u: u64::from(value.prev_u),
        }
    }
}

impl From<LatchWords> for LatchState {
    ghost from_gives = { λ w s. s ≡ latch_of w };

    #[tactic(auto, unfolding(crate::specs::Latch::latch_of, crate::specs::Flags::word_flag))]
    #[inline(always)]
    fn from(words: LatchWords) -> Self {
        LatchState {
            held: words.held != 0,
            prev_u: words.prev_u != 0,
        }
    }
}
