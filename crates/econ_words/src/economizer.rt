// `EconomizerState` of economizer_controller as words. Written by tools/words.
ghost use Rattle.std.specs.Prelude.{◌≡◌};
ghost use Rattle.econ_words.specs.Economizer.{economizer_words, economizer_of};

use crate::enable::EnableWords;
use block_words::pid_with_reset::PidWithResetWords;
use block_words::seen::SeenWords;
use economizer_controller::enable::EnableState;
use economizer_controller::types::EconomizerState;
use reals::pid_with_reset::PidWithResetState;

#[repr(C)]
#[derive(Clone, Copy)]
pub struct EconomizerWords {
    pub last: SeenWords,
    pub minimum_outdoor_air_loop: PidWithResetWords,
    pub enable: EnableWords,
}

impl From<EconomizerState> for EconomizerWords {
    ghost from_gives = { λ s w. w ≡ economizer_words s };

    #[tactic(auto, unfolding(crate::specs::Economizer::economizer_words))]
    #[inline(always)]
    fn from(value: EconomizerState) -> Self {
        EconomizerWords {
            last: SeenWords::from(value.last),
            minimum_outdoor_air_loop: PidWithResetWords::from(value.minimum_outdoor_air_loop),
            enable: EnableWords::from(value.enable),
        }
    }
}

impl From<EconomizerWords> for EconomizerState {
    ghost from_gives = { λ w s. s ≡ economizer_of w };

    #[tactic(auto, unfolding(crate::specs::Economizer::economizer_of))]
    #[inline(always)]
    fn from(words: EconomizerWords) -> Self {
        EconomizerState {
            last: Option::from(words.last),
            minimum_outdoor_air_loop: PidWithResetState::from(words.minimum_outdoor_air_loop),
            enable: EnableState::from(words.enable),
        }
    }
}
