// `DamperEnable` of relief_fan_group as words. Written by tools/words.
ghost use Rattle.std.specs.Prelude.{◌≡◌};
ghost use Rattle.relief_words.specs.DamperEnable.{damper_enable_words, damper_enable_zero};

use block_words::timer_output::TimerOutputWords;
use relief_fan_group::types::DamperEnable;
use std::array;

#[repr(C)]
#[derive(Clone, Copy)]
pub struct DamperEnableWords {
    pub damper_open: u64,
    pub damper_close_request: u64,
    pub tim: TimerOutputWords,
    pub ena_dam: [u64; 4],
}

impl From<DamperEnable> for DamperEnableWords {
    ghost from_gives = { λ s w. w ≡ damper_enable_words s };

    #[tactic(auto, unfolding(crate::specs::DamperEnable::damper_enable_words, block_words::specs::Flags::flag_word))]
    #[inline(always)]
    fn from(value: DamperEnable) -> Self {
        // By name first: the borrow checker takes some of these arrays from variables only.
        let ena_dam = array::from_fn(|i| u64::from(value.ena_dam[i]));
        DamperEnableWords {
            damper_open: u64::from(value.damper_open),
            damper_close_request: u64::from(value.damper_close_request),
            tim: TimerOutputWords::from(value.tim),
            ena_dam,
        }
    }
}

impl Default for DamperEnableWords {
    ghost is_default = { λ w. w ≡ damper_enable_zero };

    #[tactic(auto, unfolding(crate::specs::DamperEnable::damper_enable_zero))]
    #[inline(always)]
    fn default() -> Self {
        DamperEnableWords {
            damper_open: 0,
            damper_close_request: 0,
            tim: TimerOutputWords::default(),
            ena_dam: [0; 4],
        }
    }
}
