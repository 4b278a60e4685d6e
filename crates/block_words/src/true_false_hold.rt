// `TrueFalseHoldState` of logical as words. Written by tools/words.
ghost use Rattle.std.specs.Prelude.{◌≡◌};
ghost use Rattle.block_words.specs.TrueFalseHold.{true_false_hold_words, true_false_hold_of};

use crate::seen::SeenWords;
use logical::true_false_hold::TrueFalseHoldState;

#[repr(C)]
#[derive(Clone, Copy)]
pub struct TrueFalseHoldWords {
    pub held: u64,
    pub timer: f64,
    pub prev_t: SeenWords,
    pub true_hold_duration: f64,
    pub false_hold_duration: f64,
}

impl From<TrueFalseHoldState> for TrueFalseHoldWords {
    ghost from_gives = { λ s w. w ≡ true_false_hold_words s };

    #[tactic(auto, unfolding(crate::specs::TrueFalseHold::true_false_hold_words, crate::specs::Flags::flag_word))]
    #[inline(always)]
    fn from(value: TrueFalseHoldState) -> Self {
        TrueFalseHoldWords {
            held: u64::from(value.held),
            timer: value.timer,
            prev_t: SeenWords::from(value.prev_t),
            true_hold_duration: value.true_hold_duration,
            false_hold_duration: value.false_hold_duration,
        }
    }
}

impl From<TrueFalseHoldWords> for TrueFalseHoldState {
    ghost from_gives = { λ w s. s ≡ true_false_hold_of w };

    #[tactic(auto, unfolding(crate::specs::TrueFalseHold::true_false_hold_of, crate::specs::Flags::word_flag))]
    #[inline(always)]
    fn from(words: TrueFalseHoldWords) -> Self {
        TrueFalseHoldState {
            held: words.held != 0,
            timer: words.timer,
            prev_t: Option::from(words.prev_t),
            true_hold_duration: words.true_hold_duration,
            false_hold_duration: words.false_hold_duration,
        }
    }
}
