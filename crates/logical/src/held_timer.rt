// CDL.Logical.Timer: `TimerState` of freeze_protection.rs, with the elapsed time that it works beside its mark. Once passed it stays so until the input falls.
ghost use Rattle.std.specs.Prelude.{◌≡◌};
ghost use Rattle.logical.specs.HeldTimer.{held_timer_new, held_timer_output, held_timer_update};

use crate::timer::{TimerOutput, elapsed_time, entry_time};
use reals::switch::switch;

#[derive(Clone, Copy)]
pub struct HeldTimerState {
    pub threshold: f64,
    pub entry_time: Option<f64>,
    pub prev_u: bool,
    pub passed: bool,
}

impl HeldTimerState {
    #[tactic(auto, unfolding(crate::specs::HeldTimer::held_timer_new))]
    pub fn new(threshold: f64) -> Self
        ensures { result ≡ held_timer_new threshold }
    {
        HeldTimerState {
            threshold,
            entry_time: None,
            prev_u: false,
            passed: threshold <= 0.0,
        }
    }

    // A rise re-arms the mark, the threshold sets it, a fall clears it; else it is kept.
    #[tactic(auto, unfolding(crate::specs::HeldTimer::held_timer_output))]
    pub fn output(self, t: f64, u: bool) -> TimerOutput
        ensures { result ≡ held_timer_output self t u }
    {
        let elapsed = elapsed_time(self.entry_time, self.prev_u, t, u);
        let rises = u & !self.prev_u;
        let reaches = u & (elapsed >= self.threshold);
        let falls = !u & self.prev_u;
        let kept = switch(falls, false, self.passed);
        let reached = switch(reaches, true, kept);
        TimerOutput {
            passed: switch(rises, self.threshold <= 0.0, reached),
            elapsed,
        }
    }

    #[tactic(auto, unfolding(crate::specs::HeldTimer::held_timer_update))]
    pub fn update(mut self, t: f64, u: bool) -> Self
        ensures { result ≡ held_timer_update self t u }
    {
        HeldTimerState {
            threshold: self.threshold,
            entry_time: entry_time(self.entry_time, self.prev_u, t, u),
            prev_u: u,
            passed: self.output(t, u).passed,
        }
    }
}
