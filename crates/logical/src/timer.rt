// What the timers share: the time at which the input became true, the time since then, and their answer.
ghost use Rattle.std.specs.Prelude.{◌≡◌};
ghost use Rattle.logical.specs.Timer.{entry_time, elapsed_time, timer_output_left};

use reals::order::greater;
use reals::seen::elapsed;
use reals::switch::switch;

// A timer's answer at a row, CDL.Logical.Timer's passed and y: whether its time has passed, and the seconds since its input became true.
#[derive(Clone, Copy)]
pub struct TimerOutput {
    pub passed: bool,
    pub elapsed: f64,
}

impl TimerOutput {
    // The seconds left until a timer with this threshold passes: the threshold less the elapsed time, not below 0, and 0 once it has passed.
    #[tactic(auto, unfolding(crate::specs::Timer::timer_output_left))]
    pub fn left(self, threshold: f64) -> f64
        ensures { result ≡ timer_output_left self threshold }
    {
        switch(self.passed, 0.0, greater(threshold - self.elapsed, 0.0))
    }
}

// The time at which the input became true, at a row with input u at t; none while it is false.
#[tactic(auto, unfolding(crate::specs::Timer::entry_time))]
pub fn entry_time(entry: Option<f64>, prev_u: bool, t: f64, u: bool) -> Option<f64>
    ensures { result ≡ entry_time entry prev_u t u }
{
    if !u {
        return None;
    }
    if !prev_u {
        return Some(t);
    }
    // The time that is kept, made anew: `entry` itself would hand on the unused bytes beside its mark too.
    match entry {
        None => None,
        Some(p) => Some(p),
    }
}

// The time since the input became true; 0 where it is false or has just risen.
#[tactic(auto, unfolding(crate::specs::Timer::elapsed_time))]
pub fn elapsed_time(entry: Option<f64>, prev_u: bool, t: f64, u: bool) -> f64
    ensures { result ≡ elapsed_time entry prev_u t u }
{
    switch(u & prev_u, elapsed(entry, t), 0.0)
}
