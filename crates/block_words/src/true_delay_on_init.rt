// `TrueDelayOnInitState` of logical as words. Written by tools/words.
ghost use Rattle.std.specs.Prelude.{◌≡◌, map};
ghost use Rattle.block_words.specs.TrueDelayOnInit.{true_delay_on_init_words, true_delay_on_init_of};

use crate::seen::SeenWords;
use logical::true_delay_on_init::TrueDelayOnInitState;
use std::array;

#[repr(C)]
#[derive(Clone, Copy)]
pub struct TrueDelayOnInitWords {
    pub delay_time: f64,
    pub entry_time: SeenWords,
    pub previous_u: u64,
}

impl From<TrueDelayOnInitState> for TrueDelayOnInitWords {
    ghost from_gives = { λ s w. w ≡ true_delay_on_init_words s };

    #[tactic(auto, unfolding(crate::specs::TrueDelayOnInit::true_delay_on_init_words, crate::specs::Flags::flag_word))]
    #[inline(always)]
    fn from(value: TrueDelayOnInitState) -> Self {
        TrueDelayOnInitWords {
            delay_time: value.delay_time,
            entry_time: SeenWords::from(value.entry_time),
            previous_u: u64::from(value.previous_u),
        }
    }
}

impl From<TrueDelayOnInitWords> for TrueDelayOnInitState {
    ghost from_gives = { λ w s. s ≡ true_delay_on_init_of w };

    #[tactic(auto, unfolding(crate::specs::TrueDelayOnInit::true_delay_on_init_of, crate::specs::Flags::word_flag))]
    #[inline(always)]
    fn from(words: TrueDelayOnInitWords) -> Self {
        TrueDelayOnInitState {
            delay_time: words.delay_time,
            entry_time: Option::from(words.entry_time),
            previous_u: words.previous_u != 0,
        }
    }
}

// A function of its own: the check does not find eight such lists written inside their struct.
pub fn true_delay_on_init_words_of_four(
    values: [TrueDelayOnInitState; 4],
) -> [TrueDelayOnInitWords; 4]
    ensures { result ≡ map true_delay_on_init_words values }
{
    array::from_fn(|i| TrueDelayOnInitWords::from(values[i]))
}

// A function of its own: the check does not find eight such lists written inside their struct.
pub fn true_delay_on_init_values_of_four(
    words: [TrueDelayOnInitWords; 4],
) -> [TrueDelayOnInitState; 4]
    ensures { result ≡ map true_delay_on_init_of words }
{
    array::from_fn(|i| TrueDelayOnInitState::from(words[i]))
}
