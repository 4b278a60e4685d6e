// `TimerState` of relief_fan_group.rs, with the elapsed time that it tests: a timer that does not hold its pass. It tests the present row only.
ghost use Rattle.std.specs.Prelude.{◌≡◌};
ghost use Rattle.logical.specs.PresentTimer.{present_timer_new, present_timer_output, present_timer_update};

use crate::timer::{TimerOutput, elapsed_time, entry_time};

#[derive(Clone, Copy)]
pub struct PresentTimerState {
    pub threshold: f64,
    pub entry_time: Option<f64>,
    pub prev_u: bool,
}

impl PresentTimerState {
    #[tactic(auto, unfolding(crate::specs::PresentTimer::present_timer_new))]
    pub fn new(threshold: f64) -> Self
        ensures { result ≡ present_timer_new threshold }
    {
        PresentTimerState {
            threshold,
            entry_time: None,
            prev_u: false,
        }
    }

    // The input was true at the row before and is true here, and the elapsed time is the threshold or more.
    #[tactic(auto, unfolding(crate::specs::PresentTimer::present_timer_output))]
    pub fn output(self, t: f64, u: bool) -> TimerOutput
        ensures { result ≡ present_timer_output self t u }
    {
        let elapsed = elapsed_time(self.entry_time, self.prev_u, t, u);
        TimerOutput {
            passed: u & self.prev_u & (elapsed >= self.threshold),
            elapsed,
        }
    }

    #[tactic(auto, unfolding(crate::specs::PresentTimer::present_timer_update))]
    pub fn update(mut self, t: f64, u: bool) -> Self
        ensures { result ≡ present_timer_update self t u }
    {
        PresentTimerState {
            threshold: self.threshold,
            entry_time: entry_time(self.entry_time, self.prev_u, t, u),
            prev_u: u,
        }
    }
}
