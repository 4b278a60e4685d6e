// The timer of stage 2's hour, in either manner. It stops when its input falls, as CDL.Logical.Timer does (freeze_protection.rs); or it runs on: it
// counts from the input's last rise whatever the input does since, and a pass stays until the next rise.
ghost use Rattle.std.specs.Prelude.{◌≡◌};
ghost use Rattle.logical.specs.HourTimer.{hour_timer, timer_in, hour_timer_new, hour_timer_running, hour_timer_output, hour_timer_update};

use crate::held_timer::HeldTimerState;
use crate::timer::TimerOutput;

// The manner stands among the timer's own flags: beside a whole timer it is a word more, which each row copies.
#[derive(Clone, Copy)]
pub struct HourTimerState {
    pub threshold: f64,
    pub entry_time: Option<f64>,
    pub prev_u: bool,
    pub passed: bool,
    pub runs_on: bool,
}

impl HourTimerState {
    #[tactic(auto, unfolding(crate::specs::HourTimer::hour_timer_new))]
    pub fn new(threshold: f64, runs_on: bool) -> Self
        ensures { result ≡ hour_timer_new threshold runs_on }
    {
        Self::of(HeldTimerState::new(threshold), runs_on)
    }

    // A held timer, in a manner.
    fn of(held: HeldTimerState, runs_on: bool) -> Self
        ensures { result ≡ hour_timer runs_on held }
    {
        HourTimerState {
            threshold: held.threshold,
            entry_time: held.entry_time,
            prev_u: held.prev_u,
            passed: held.passed,
            runs_on,
        }
    }

    // The timer without its manner.
    fn timer(self) -> HeldTimerState
        ensures { result ≡ timer_in self }
    {
        HeldTimerState {
            threshold: self.threshold,
            entry_time: self.entry_time,
            prev_u: self.prev_u,
            passed: self.passed,
        }
    }

    // Where it runs on: the held timer that answers for it, whose input stays true and rises where u does.
    #[tactic(auto, unfolding(crate::specs::HourTimer::hour_timer_running))]
    fn running(self, u: bool) -> HeldTimerState
        ensures { result ≡ hour_timer_running self u }
    {
        HeldTimerState {
            prev_u: self.prev_u | !u,
            ..self.timer()
        }
    }

    #[tactic(auto, using(crate::proofs::Manners::output_is), unfolding(crate::specs::HourTimer::hour_timer_output))]
    pub fn output(self, t: f64, u: bool) -> TimerOutput
        ensures { result ≡ hour_timer_output self t u }
    {
        if self.runs_on {
            return self.running(u).output(t, true);
        }
        self.timer().output(t, u)
    }

    #[tactic(auto, using(crate::proofs::Manners::update_is), unfolding(crate::specs::HourTimer::hour_timer_update))]
    pub fn update(mut self, t: f64, u: bool) -> Self
        ensures { result ≡ hour_timer_update self t u }
    {
        if self.runs_on {
            let next = self.running(u).update(t, true);
            return Self::of(HeldTimerState { prev_u: u, ..next }, true);
        }
        Self::of(self.timer().update(t, u), false)
    }
}
