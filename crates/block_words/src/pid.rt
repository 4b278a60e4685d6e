// `PidState` of reals as words. Written by tools/words.
ghost use Rattle.std.specs.Prelude.{◌≡◌};
ghost use Rattle.block_words.specs.Pid.{pid_words, pid_of};

use crate::seen::SeenWords;
use reals::pid::PidState;

#[repr(C)]
#[derive(Clone, Copy)]
pub struct PidWords {
    pub integral: f64,
    pub prev_t: SeenWords,
}

impl From<PidState> for PidWords {
    ghost from_gives = { λ s w. w ≡ pid_words s };

    #[tactic(auto, unfolding(crate::specs::Pid::pid_words))]
    #[inline(always)]
    fn from(value: PidState) -> Self {
        PidWords {
            integral: value.integral,
            prev_t: SeenWords::from(value.prev_t),
        }
    }
}

impl From<PidWords> for PidState {
    ghost from_gives = { λ w s. s ≡ pid_of w };

    #[tactic(auto, unfolding(crate::specs::Pid::pid_of))]
    #[inline(always)]
    fn from(words: PidWords) -> Self {
        PidState {
            integral: words.integral,
            prev_t: Option::from(words.prev_t),
        }
    }
}
