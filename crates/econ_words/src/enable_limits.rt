// `EnableLimits` of economizer_controller as words. Written by tools/words.
ghost use Rattle.std.specs.Prelude.{◌≡◌};
ghost use Rattle.econ_words.specs.EnableLimits.{enable_limits_words, enable_limits_zero};

use economizer_controller::types::EnableLimits;

#[repr(C)]
#[derive(Clone, Copy)]
pub struct EnableLimitsWords {
    pub outdoor_damper_max_limit: f64,
    pub return_damper_min_limit: f64,
    pub return_damper_max_limit: f64,
}

impl From<EnableLimits> for EnableLimitsWords {
    ghost from_gives = { λ s w. w ≡ enable_limits_words s };

    #[tactic(auto, unfolding(crate::specs::EnableLimits::enable_limits_words))]
    #[inline(always)]
    fn from(value: EnableLimits) -> Self {
        EnableLimitsWords {
            outdoor_damper_max_limit: value.outdoor_damper_max_limit,
            return_damper_min_limit: value.return_damper_min_limit,
            return_damper_max_limit: value.return_damper_max_limit,
        }
    }
}

impl Default for EnableLimitsWords {
    ghost is_default = { λ w. w ≡ enable_limits_zero };

    #[tactic(auto, unfolding(crate::specs::EnableLimits::enable_limits_zero))]
    #[inline(always)]
    fn default() -> Self {
        EnableLimitsWords {
            outdoor_damper_max_limit: 0.0,
            return_damper_min_limit: 0.0,
            return_damper_max_limit: 0.0,
        }
    }
}
