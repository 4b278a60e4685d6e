// `HysteresisState` of reals as words. Written by tools/words.
ghost use Rattle.std.specs.Prelude.{◌≡◌};
ghost use Rattle.block_words.specs.Hysteresis.{hysteresis_words, hysteresis_of};

use reals::hysteresis::HysteresisState;

#[repr(C)]
#[derive(Clone, Copy)]
pub struct HysteresisWords {
    pub previous: u64,
}

impl From<HysteresisState> for HysteresisWords {
    ghost from_gives = { λ s w. w ≡ hysteresis_words s };

    #[tactic(auto, unfolding(crate::specs::Hysteresis::hysteresis_words, crate::specs::Flags::flag_word))]
    #[inline(always)]
    fn from(value: HysteresisState) -> Self {
        HysteresisWords {
            previous: u64::from(value.previous),
        }
    }
}

impl From<HysteresisWords> for HysteresisState {
    ghost from_gives = { λ w s. s ≡ hysteresis_of w };

    #[tactic(auto, unfolding(crate::specs::Hysteresis::hysteresis_of, crate::specs::Flags::word_flag))]
    #[inline(always)]
    fn from(words: HysteresisWords) -> Self {
        HysteresisState {
            previous: words.previous != 0,
        }
    }
}
