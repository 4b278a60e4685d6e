// `Integrator` of moving_average as words. Written by tools/words.
ghost use Rattle.std.specs.Prelude.{◌≡◌};
ghost use Rattle.block_words.specs.Integrator.{integrator_words, integrator_of};

use crate::seen::SeenWords;
use moving_average::lent::Integrator;

#[repr(C)]
#[derive(Clone, Copy)]
pub struct IntegratorWords {
    pub t_start: f64,
    pub prev_t: SeenWords,
    pub mu: f64,
    pub count: usize,
}

impl From<Integrator> for IntegratorWords {
    ghost from_gives = { λ s w. w ≡ integrator_words s };

    #[tactic(auto, unfolding(crate::specs::Integrator::integrator_words))]
    #[inline(always)]
    fn from(value: Integrator) -> Self {
        IntegratorWords {
            t_start: value.t_start,
            prev_t: SeenWords::from(value.prev_t),
            mu: value.mu,
            count: value.count,
        }
    }
}

impl From<IntegratorWords> for Integrator {
    ghost from_gives = { λ w s. s ≡ integrator_of w };

    #[tactic(auto, unfolding(crate::specs::Integrator::integrator_of))]
    #[inline(always)]
    fn from(words: IntegratorWords) -> Self {
        Integrator {
            t_start: words.t_start,
            prev_t: Option::from(words.prev_t),
            mu: words.mu,
            count: words.count,
        }
    }
}
