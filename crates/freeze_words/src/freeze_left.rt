// `FreezeLeft` of freeze_protection as words. Written by tools/words.
ghost use Rattle.std.specs.Prelude.{◌≡◌};
ghost use Rattle.freeze_words.specs.FreezeLeft.{freeze_left_words, freeze_left_zero};

use freeze_protection::types::FreezeLeft;

#[repr(C)]
#[derive(Clone, Copy)]
pub struct FreezeLeftWords {
    pub tim: f64,
    pub tim1: f64,
    pub tim2: f64,
    pub tim3: f64,
    pub tim4: f64,
    pub tim5: f64,
}

impl From<FreezeLeft> for FreezeLeftWords {
    ghost from_gives = { λ s w. w ≡ freeze_left_words s };

    #[tactic(auto, unfolding(crate::specs::FreezeLeft::freeze_left_words))]
    #[inline(always)]
    fn from(value: FreezeLeft) -> Self {
        FreezeLeftWords {
            tim: value.tim,
            tim1: value.tim1,
            tim2: value.tim2,
            tim3: value.tim3,
            tim4: value.tim4,
            tim5: value.tim5,
        }
    }
}

impl Default for FreezeLeftWords {
    ghost is_default = { λ w. w ≡ freeze_left_zero };

    #[tactic(auto, unfolding(crate::specs::FreezeLeft::freeze_left_zero))]
    #[inline(always)]
    fn default() -> Self {
        FreezeLeftWords {
            tim: 0.0,
            tim1: 0.0,
            tim2: 0.0,
            tim3: 0.0,
            tim4: 0.0,
            tim5: 0.0,
        }
    }
}
