// `PidWithResetState` of reals as words. Written by tools/words.
ghost use Rattle.std.specs.Prelude.{◌≡◌};
ghost use Rattle.block_words.specs.PidWithReset.{pid_with_reset_words, pid_with_reset_of};

use crate::seen::SeenWords;
use reals::pid_with_reset::PidWithResetState;

#[repr(C)]
#[derive(Clone, Copy)]
pub struct PidWithResetWords {
    pub integral: f64,
    pub prev_t: SeenWords,
    pub previous_trigger: u64,
}

impl From<PidWithResetState> for PidWithResetWords {
    ghost from_gives = { λ s w. w ≡ pid_with_reset_words s };

    #[tactic(auto, unfolding(crate::specs::PidWithReset::pid_with_reset_words, crate::specs::Flags::flag_word))]
    #[inline(always)]
    fn from(value: PidWithResetState) -> Self {
        PidWithResetWords {
            integral: value.integral,
            prev_t: SeenWords::from(value.prev_t),
            previous_trigger: u64::from(value.previous_trigger),
        }
    }
}

impl From<PidWithResetWords> for PidWithResetState {
    ghost from_gives = { λ w s. s ≡ pid_with_reset_of w };

    #[tactic(auto, unfolding(crate::specs::PidWithReset::pid_with_reset_of, crate::specs::Flags::word_flag))]
    #[inline(always)]
    fn from(words: PidWithResetWords) -> Self {
        PidWithResetState {
            integral: words.integral,
            prev_t: Option::from(words.prev_t),
            previous_trigger: words.previous_trigger != 0,
        }
    }
}
