// `HeldTimerState` of logical as words. Written by tools/words.
ghost use Rattle.std.specs.Prelude.{◌≡◌};
ghost use Rattle.block_words.specs.HeldTimer.{held_timer_words, held_timer_of};

use crate::seen::SeenWords;
use logical::held_timer::HeldTimerState;

#[repr(C)]
#[derive(Clone, Copy)]
pub struct HeldTimerWords {
    pub threshold: f64,
    pub entry_time: SeenWords,
    pub prev_u: u64,
    pub passed: u64,
}

impl From<HeldTimerState> for HeldTimerWords {
    ghost from_gives = { λ s w. w ≡ held_timer_words s };

    #[tactic(auto, unfolding(crate::specs::HeldTimer::held_timer_words, crate::specs::Flags::flag_word))]
    #[inline(always)]
    fn from(value: HeldTimerState) -> Self {
        HeldTimerWords {
            threshold: value.threshold,
            entry_time: SeenWords::from(value.entry_time),
            prev_u: u64::from(value.prev_u),
            passed: u64::from(value.passed),
        }
    }
}

impl From<HeldTimerWords> for HeldTimerState {
    ghost from_gives = { λ w s. s ≡ held_timer_of w };

    #[tactic(auto, unfolding(crate::specs::HeldTimer::held_timer_of, crate::specs::Flags::word_flag))]
    #[inline(always)]
    fn from(words: HeldTimerWords) -> Self {
        HeldTimerState {
            threshold: words.threshold,
            entry_time: Option::from(words.entry_time),
            prev_u: words.prev_u != 0,
            passed: words.passed != 0,
        }
    }
}
