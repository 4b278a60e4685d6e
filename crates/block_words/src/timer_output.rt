// `TimerOutput` of logical as words. Written by tools/words.
ghost use Rattle.std.specs.Prelude.{◌≡◌};
ghost use Rattle.block_words.specs.TimerOutput.{timer_output_words, timer_output_zero};

use logical::timer::TimerOutput;

#[repr(C)]
#[derive(Clone, Copy)]
pub struct TimerOutputWords {
    pub passed: u64,
    pub elapsed: f64,
}

impl From<TimerOutput> for TimerOutputWords {
    ghost from_gives = { λ s w. w ≡ timer_output_words s };

    #[tactic(auto, unfolding(crate::specs::TimerOutput::timer_output_words, crate::specs::Flags::flag_word))]
    #[inline(always)]
    fn from(value: TimerOutput) -> Self {
        TimerOutputWords {
            passed: u64::from(value.passed),
            elapsed: value.elapsed,
        }
    }
}

impl Default for TimerOutputWords {
    ghost is_default = { λ w. w ≡ timer_output_zero };

    #[tactic(auto, unfolding(crate::specs::TimerOutput::timer_output_zero))]
    #[inline(always)]
    fn default() -> Self {
        TimerOutputWords {
            passed: 0,
            elapsed: 0.0,
        }
    }
}
