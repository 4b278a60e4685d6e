// `PreState` of logical as words. Written by tools/words.
ghost use Rattle.std.specs.Prelude.{◌≡◌};
ghost use Rattle.block_words.specs.Pre.{pre_words, pre_of};

use logical::pre::PreState;

#[repr(C)]
#[derive(Clone, Copy)]
pub struct PreWords {
    pub previous: u64,
}

impl From<PreState> for PreWords {
    ghost from_gives = { λ s w. w ≡ pre_words s };

    #[tactic(auto, unfolding(crate::specs::Pre::pre_words, crate::specs::Flags::flag_word))]
    #[inline(always)]
    fn from(value: PreState) -> Self {
        PreWords {
            previous: u64::from(value.previous),
        }
    }
}

impl From<PreWords> for PreState {
    ghost from_gives = { λ w s. s ≡ pre_of w };

    #[tactic(auto, unfolding(crate::specs::Pre::pre_of, crate::specs::Flags::word_flag))]
    #[inline(always)]
    fn from(words: PreWords) -> Self {
        PreState {
            previous: words.previous != 0,
        }
    }
}
