// `StageUp` of relief_fan_group as words. Written by tools/words.
ghost use Rattle.std.specs.Prelude.{◌≡◌};
ghost use Rattle.relief_words.specs.StageUp.{stage_up_words, stage_up_zero};

use block_words::timer_output::TimerOutputWords;
use relief_fan_group::types::StageUp;
use std::array;

#[repr(C)]
#[derive(Clone, Copy)]
pub struct StageUpWords {
    pub all_fans_off: u64,
    pub pro1: [f64; 4],
    pub up_distance: [f64; 4],
    pub or2: [u64; 4],
    pub all_newly_started_proven: u64,
    pub up_gate: u64,
    pub up_tim: TimerOutputWords,
    pub lat2_y: u64,
}

impl From<StageUp> for StageUpWords {
    ghost from_gives = { λ s w. w ≡ stage_up_words s };

    #[tactic(auto, unfolding(crate::specs::StageUp::stage_up_words, block_words::specs::Flags::flag_word))]
    #[inline(always)]
    fn from(value: StageUp) -> Self {
        // By name first: the borrow checker takes some of these arrays from variables only.
        let pro1 = value.pro1;
        let up_distance = value.up_distance;
        let or2 = array::from_fn(|i| u64::from(value.or2[i]));
        StageUpWords {
            all_fans_off: u64::from(value.all_fans_off),
            pro1,
            up_distance,
            or2,
            all_newly_started_proven: u64::from(value.all_newly_started_proven),
            up_gate: u64::from(value.up_gate),
            up_tim: TimerOutputWords::from(value.up_tim),
            lat2_y: u64::from(value.lat2_y),
        }
    }
}

impl Default for StageUpWords {
    ghost is_default = { λ w. w ≡ stage_up_zero };

    #[tactic(auto, unfolding(crate::specs::StageUp::stage_up_zero))]
    #[inline(always)]
    fn default() -> Self {
        StageUpWords {
            all_fans_off: 0,
            pro1: [0.0; 4],
            up_distance: [0.0; 4],
            or2: [0; 4],
            all_newly_started_proven: 0,
            up_gate: 0,
            up_tim: TimerOutputWords::default(),
            lat2_y: 0,
        }
    }
}
