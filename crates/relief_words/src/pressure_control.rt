// `PressureControl` of relief_fan_group as words. Written by tools/words.
ghost use Rattle.std.specs.Prelude.{◌≡◌};
ghost use Rattle.relief_words.specs.PressureControl.{pressure_control_words, pressure_control_zero};

use relief_fan_group::types::PressureControl;

#[repr(C)]
#[derive(Clone, Copy)]
pub struct PressureControlWords {
    pub average: f64,
    pub controller: f64,
    pub ena_rel_group: u64,
    pub gated_controller: f64,
    pub ena_rel: [f64; 4],
    pub gai: [f64; 4],
    pub any_enabled: u64,
}

impl From<PressureControl> for PressureControlWords {
    ghost from_gives = { λ s w. w ≡ pressure_control_words s };

    #[tactic(auto, unfolding(crate::specs::PressureControl::pressure_control_words, block_words::specs::Flags::flag_word))]
    #[inline(always)]
    fn from(value: PressureControl) -> Self {
        // By name first: the borrow checker takes some of these arrays from variables only.
        let ena_rel = value.ena_rel;
        let gai = value.gai;
        PressureControlWords {
            average: value.average,
            controller: value.controller,
            ena_rel_group: u64::from(value.ena_rel_group),
            gated_controller: value.gated_controller,
            ena_rel,
            gai,
            any_enabled: u64::from(value.any_enabled),
        }
    }
}

impl Default for PressureControlWords {
    ghost is_default = { λ w. w ≡ pressure_control_zero };

    #[tactic(auto, unfolding(crate::specs::PressureControl::pressure_control_zero))]
    #[inline(always)]
    fn default() -> Self {
        PressureControlWords {
            average: 0.0,
            controller: 0.0,
            ena_rel_group: 0,
            gated_controller: 0.0,
            ena_rel: [0.0; 4],
            gai: [0.0; 4],
            any_enabled: 0,
        }
    }
}
