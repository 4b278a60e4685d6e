// `HourTimerState` of logical as words. Written by tools/words.
ghost use Rattle.std.specs.Prelude.{◌≡◌};
ghost use Rattle.block_words.specs.HourTimer.{hour_timer_words, hour_timer_of};

use crate::seen::SeenWords;
use logical::hour_timer::HourTimerState;

#[repr(C)]
#[derive(Clone, Copy)]
pub struct HourTimerWords {
    pub threshold: f64,
    pub entry_time: SeenWords,
    pub prev_u: u64,
    pub passed: u64,
    pub runs_on: u64,
}

impl From<HourTimerState> for HourTimerWords {
    ghost from_gives = { λ s w. w ≡ hour_timer_words s };

    #[tactic(auto, unfolding(crate::specs::HourTimer::hour_timer_words, crate::specs::Flags::flag_word))]
    #[inline(always)]
    fn from(value: HourTimerState) -> Self {
        HourTimerWords {
            threshold: value.threshold,
            entry_time: SeenWords::from(value.entry_time),
            prev_u: u64::from(value.prev_u),
            passed: u64::from(value.passed),
            runs_on: u64::from(value.runs_on),
        }
    }
}

impl From<HourTimerWords> for HourTimerState {
    ghost from_gives = { λ w s. s ≡ hour_timer_of w };

    #[tactic(auto, unfolding(crate::specs::HourTimer::hour_timer_of, crate::specs::Flags::word_flag))]
    #[inline(always)]
    fn from(words: HourTimerWords) -> Self {
        HourTimerState {
            threshold: words.threshold,
            entry_time: Option::from(words.entry_time),
            prev_u: words.prev_u != 0,
            passed: words.passed != 0,
            runs_on: words.runs_on != 0,
        }
    }
}
