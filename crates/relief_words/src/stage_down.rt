// `StageDown` of relief_fan_group as words. Written by tools/words.
ghost use Rattle.std.specs.Prelude.{◌≡◌};
ghost use Rattle.relief_words.specs.StageDown.{stage_down_words, stage_down_zero};

use block_words::timer_output::TimerOutputWords;
use relief_fan_group::types::StageDown;
use std::array;

#[repr(C)]
#[derive(Clone, Copy)]
pub struct StageDownWords {
    pub pro2: [f64; 4],
    pub down_distance: [f64; 4],
    pub xor: [u64; 4],
    pub not5: [u64; 4],
    pub all_stopped_matches: u64,
    pub down_gate: u64,
    pub dow_tim: TimerOutputWords,
    pub lat1_y: u64,
}

impl From<StageDown> for StageDownWords {
    ghost from_gives = { λ s w. w ≡ stage_down_words s };

    #[tactic(auto, unfolding(crate::specs::StageDown::stage_down_words, block_words::specs::Flags::flag_word))]
    #[inline(always)]
    fn from(value: StageDown) -> Self {
        // By name first: the borrow checker takes some of these arrays from variables only.
        let pro2 = value.pro2;
        let down_distance = value.down_distance;
        let xor = array::from_fn(|i| u64::from(value.xor[i]));
        let not5 = array::from_fn(|i| u64::from(value.not5[i]));
        StageDownWords {
            pro2,
            down_distance,
            xor,
            not5,
            all_stopped_matches: u64::from(value.all_stopped_matches),
            down_gate: u64::from(value.down_gate),
            dow_tim: TimerOutputWords::from(value.dow_tim),
            lat1_y: u64::from(value.lat1_y),
        }
    }
}

impl Default for StageDownWords {
    ghost is_default = { λ w. w ≡ stage_down_zero };

    #[tactic(auto, unfolding(crate::specs::StageDown::stage_down_zero))]
    #[inline(always)]
    fn default() -> Self {
        StageDownWords {
            pro2: [0.0; 4],
            down_distance: [0.0; 4],
            xor: [0; 4],
            not5: [0; 4],
            all_stopped_matches: 0,
            down_gate: 0,
            dow_tim: TimerOutputWords::default(),
            lat1_y: 0,
        }
    }
}
