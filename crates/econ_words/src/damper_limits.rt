// `DamperLimits` of economizer_controller as words. Written by tools/words.
ghost use Rattle.std.specs.Prelude.{◌≡◌};
ghost use Rattle.econ_words.specs.DamperLimits.{damper_limits_words, damper_limits_zero};

use economizer_controller::types::DamperLimits;

#[repr(C)]
#[derive(Clone, Copy)]
pub struct DamperLimitsWords {
    pub outdoor_damper_min_limit: f64,
    pub outdoor_damper_max_limit: f64,
    pub return_damper_min_limit: f64,
    pub return_damper_max_limit: f64,
    pub return_damper_physical_max_limit: f64,
}

impl From<DamperLimits> for DamperLimitsWords {
    ghost from_gives = { λ s w. w ≡ damper_limits_words s };

    #[tactic(auto, unfolding(crate::specs::DamperLimits::damper_limits_words))]
    #[inline(always)]
    fn from(value: DamperLimits) -> Self {
        DamperLimitsWords {
            outdoor_damper_min_limit: value.outdoor_damper_min_limit,
            outdoor_damper_max_limit: value.outdoor_damper_max_limit,
            return_damper_min_limit: value.return_damper_min_limit,
            return_damper_max_limit: value.return_damper_max_limit,
            return_damper_physical_max_limit: value.return_damper_physical_max_limit,
        }
    }
}

impl Default for DamperLimitsWords {
    ghost is_default = { λ w. w ≡ damper_limits_zero };

    #[tactic(auto, unfolding(crate::specs::DamperLimits::damper_limits_zero))]
    #[inline(always)]
    fn default() -> Self {
        DamperLimitsWords {
            outdoor_damper_min_limit: 0.0,
            outdoor_damper_max_limit: 0.0,
            return_damper_min_limit: 0.0,
            return_damper_max_limit: 0.0,
            return_damper_physical_max_limit: 0.0,
        }
    }
}
