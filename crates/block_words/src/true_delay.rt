// `TrueDelayState` of logical as words. Written by tools/words.
ghost use Rattle.std.specs.Prelude.{◌≡◌};
ghost use Rattle.block_words.specs.TrueDelay.{true_delay_words, true_delay_of};

use crate::seen::SeenWords;
use logical::true_delay::TrueDelayState;

#[repr(C)]
#[derive(Clone, Copy)]
pub struct TrueDelayWords {
    pub previous_time: SeenWords,
    pub previous_input: u64,
    pub held_output: u64,
    pub timer: f64,
}

impl From<TrueDelayState> for TrueDelayWords {
    ghost from_gives = { λ s w. w ≡ true_delay_words s };

    #[tactic(auto, unfolding(crate::specs::TrueDelay::true_delay_words, crate::specs::Flags::flag_word))]
    #[inline(always)]
    fn from(value: TrueDelayState) -> Self {
        TrueDelayWords {
            previous_time: SeenWords::from(value.previous_time),
            previous_input: u64::from(value.previous_input),
            held_output: u64::from(value.held_output),
            timer: value.timer,
        }
    }
}

impl From<TrueDelayWords> for TrueDelayState {
    ghost from_gives = { λ w s. s ≡ true_delay_of w };

    #[tactic(auto, unfolding(crate::specs::TrueDelay::true_delay_of, crate::specs::Flags::word_flag))]
    #[inline(always)]
    fn from(words: TrueDelayWords) -> Self {
        TrueDelayState {
            previous_time: Option::from(words.previous_time),
            previous_input: words.previous_input != 0,
            held_output: words.held_output != 0,
            timer: words.timer,
        }
    }
}
