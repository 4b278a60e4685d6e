// `PresentTimerState` of logical as words. Written by tools/words.
ghost use Rattle.std.specs.Prelude.{◌≡◌};
ghost use Rattle.block_words.specs.PresentTimer.{present_timer_words, present_timer_of};

use crate::seen::SeenWords;
use logical::present_timer::PresentTimerState;

#[repr(C)]
#[derive(Clone, Copy)]
pub struct PresentTimerWords {
    pub threshold: f64,
    pub entry_time: SeenWords,
    pub prev_u: u64,
}

impl From<PresentTimerState> for PresentTimerWords {
    ghost from_gives = { λ s w. w ≡ present_timer_words s };

    #[tactic(auto, unfolding(crate::specs::PresentTimer::present_timer_words, crate::specs::Flags::flag_word))]
    #[inline(always)]
    fn from(value: PresentTimerState) -> Self {
        PresentTimerWords {
            threshold: value.threshold,
            entry_time: SeenWords::from(value.entry_time),
            prev_u: u64::from(value.prev_u),
        }
    }
}

impl From<PresentTimerWords> for PresentTimerState {
    ghost from_gives = { λ w s. s ≡ present_timer_of w };

    #[tactic(auto, unfolding(crate::specs::PresentTimer::present_timer_of, crate::specs::Flags::word_flag))]
    #[inline(always)]
    fn from(words: PresentTimerWords) -> Self {
        PresentTimerState {
            threshold: words.threshold,
            entry_time: Option::from(words.entry_time),
            prev_u: words.prev_u != 0,
        }
    }
}
