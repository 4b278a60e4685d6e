// `RooftopHeld` of rooftop as words. Written by tools/words.
ghost use Rattle.std.specs.Prelude.{◌≡◌};
ghost use Rattle.rooftop_words.specs.Rooftop.{rooftop_words, rooftop_of};

use econ_words::economizer::EconomizerWords;
use economizer_controller::types::EconomizerState;
use freeze_protection::types::FreezeState;
use freeze_words::freeze::FreezeWords;
use relief_fan_group::types::ReliefHeld;
use relief_words::relief::ReliefWords;
use rooftop::types::RooftopHeld;

#[repr(C)]
#[derive(Clone, Copy)]
pub struct RooftopWords {
    pub stage: i64,
    pub economizer: EconomizerWords,
    pub freeze: FreezeWords,
    pub relief: ReliefWords,
}

impl From<RooftopHeld> for RooftopWords {
    ghost from_gives = { λ s w. w ≡ rooftop_words s };

    #[tactic(auto, unfolding(crate::specs::Rooftop::rooftop_words))]
    #[inline(always)]
    fn from(value: RooftopHeld) -> Self {
        RooftopWords {
            stage: value.stage,
            economizer: EconomizerWords::from(value.economizer),
            freeze: FreezeWords::from(value.freeze),
            relief: ReliefWords::from(value.relief),
        }
    }
}

impl From<RooftopWords> for RooftopHeld {
    ghost from_gives = { λ w s. s ≡ rooftop_of w };

    #[tactic(auto, unfolding(crate::specs::Rooftop::rooftop_of))]
    #[inline(always)]
    fn from(words: RooftopWords) -> Self {
        RooftopHeld {
            stage: words.stage,
            economizer: EconomizerState::from(words.economizer),
            freeze: FreezeState::from(words.freeze),
            relief: ReliefHeld::from(words.relief),
        }
    }
}
