// `ReliefLeft` of relief_fan_group as words. Written by tools/words.
ghost use Rattle.std.specs.Prelude.{◌≡◌};
ghost use Rattle.relief_words.specs.ReliefLeft.{relief_left_words, relief_left_zero};

use relief_fan_group::types::ReliefLeft;

#[repr(C)]
#[derive(Clone, Copy)]
pub struct ReliefLeftWords {
    pub tim: f64,
    pub up_tim: f64,
    pub dow_tim: f64,
}

impl From<ReliefLeft> for ReliefLeftWords {
    ghost from_gives = { λ s w. w ≡ relief_left_words s };

    #[tactic(auto, unfolding(crate::specs::ReliefLeft::relief_left_words))]
    #[inline(always)]
    fn from(value: ReliefLeft) -> Self {
        ReliefLeftWords {
            tim: value.tim,
            up_tim: value.up_tim,
            dow_tim: value.dow_tim,
        }
    }
}

impl Default for ReliefLeftWords {
    ghost is_default = { λ w. w ≡ relief_left_zero };

    #[tactic(auto, unfolding(crate::specs::ReliefLeft::relief_left_zero))]
    #[inline(always)]
    fn default() -> Self {
        ReliefLeftWords {
            tim: 0.0,
            up_tim: 0.0,
            dow_tim: 0.0,
        }
    }
}
