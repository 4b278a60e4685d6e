// `ReliefHeld` of relief_fan_group as words. Written by tools/words.
ghost use Rattle.std.specs.Prelude.{◌≡◌};
ghost use Rattle.relief_words.specs.Relief.{relief_words, relief_of};

use crate::relief_blocks::ReliefBlocksWords;
use block_words::integrator::IntegratorWords;
use moving_average::lent::Integrator;
use relief_fan_group::types::{ReliefBlocks, ReliefHeld};

#[repr(C)]
#[derive(Clone, Copy)]
pub struct ReliefWords {
    pub integrator: IntegratorWords,
    pub blocks: ReliefBlocksWords,
}

impl From<ReliefHeld> for ReliefWords {
    ghost from_gives = { λ s w. w ≡ relief_words s };

    #[tactic(auto, unfolding(crate::specs::Relief::relief_words))]
    #[inline(always)]
    fn from(value: ReliefHeld) -> Self {
        ReliefWords {
            integrator: IntegratorWords::from(value.integrator),
            blocks: ReliefBlocksWords::from(value.blocks),
        }
    }
}

impl From<ReliefWords> for ReliefHeld {
    ghost from_gives = { λ w s. s ≡ relief_of w };

    #[tactic(auto, unfolding(crate::specs::Relief::relief_of))]
    #[inline(always)]
    fn from(words: ReliefWords) -> Self {
        ReliefHeld {
            integrator: Integrator::from(words.integrator),
            blocks: ReliefBlocks::from(words.blocks),
        }
    }
}
