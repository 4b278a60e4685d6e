// `ThresholdState` of reals as words. Written by tools/words.
ghost use Rattle.std.specs.Prelude.{◌≡◌, map};
ghost use Rattle.block_words.specs.Threshold.{threshold_words, threshold_of};

use crate::threshold_mode::ThresholdModeWords;
use reals::threshold::{ThresholdMode, ThresholdState};
use std::array;

#[repr(C)]
#[derive(Clone, Copy)]
pub struct ThresholdWords {
    pub threshold: f64,
    pub hysteresis: f64,
    pub previous: u64,
    pub mode: ThresholdModeWords,
}

impl From<ThresholdState> for ThresholdWords {
    ghost from_gives = { λ s w. w ≡ threshold_words s };

    #[tactic(auto, unfolding(crate::specs::Threshold::threshold_words, crate::specs::Flags::flag_word))]
    #[inline(always)]
    fn from(value: ThresholdState) -> Self {
        ThresholdWords {
            threshold: value.threshold,
            hysteresis: value.hysteresis,
            previous: u64::from(value.previous),
            mode: ThresholdModeWords::from(value.mode),
        }
    }
}

impl From<ThresholdWords> for ThresholdState {
    ghost from_gives = { λ w s. s ≡ threshold_of w };

    #[tactic(auto, unfolding(crate::specs::Threshold::threshold_of, crate::specs::Flags::word_flag))]
    #[inline(always)]
    fn from(words: ThresholdWords) -> Self {
        ThresholdState {
            threshold: words.threshold,
            hysteresis: words.hysteresis,
            previous: words.previous != 0,
            mode: ThresholdMode::from(words.mode),
        }
    }
}

// A function of its own: the check does not find eight such lists written inside their struct.
pub fn threshold_words_of_four(values: [ThresholdState; 4]) -> [ThresholdWords; 4]
    ensures { result ≡ map threshold_words values }
{
    array::from_fn(|i| ThresholdWords::from(values[i]))
}

// A function of its own: the check does not find eight such lists written inside their struct.
pub fn threshold_values_of_four(words: [ThresholdWords; 4]) -> [ThresholdState; 4]
    ensures { result ≡ map threshold_of words }
{
    array::from_fn(|i| ThresholdState::from(words[i]))
}
