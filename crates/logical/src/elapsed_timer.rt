// CDL.Logical.Timer, its output y: `timer` of cdl_recurrences.rs, a row at a time.
ghost use Rattle.std.specs.Prelude.{◌≡◌};
ghost use Rattle.logical.specs.ElapsedTimer.{elapsed_timer_new, elapsed_timer_output, elapsed_timer_update};

use crate::timer::entry_time;
use reals::seen::elapsed;

#[derive(Clone, Copy)]
pub struct ElapsedTimerState {
    pub entry_time: Option<f64>,
    pub prev_u: bool,
}

impl ElapsedTimerState {
    #[tactic(auto, unfolding(crate::specs::ElapsedTimer::elapsed_timer_new))]
    pub fn new() -> Self
        ensures { result ≡ elapsed_timer_new }
    {
        ElapsedTimerState {
            entry_time: None,
            prev_u: false,
        }
    }

    // The seconds since u became true; 0 while it is false.
    #[tactic(auto, unfolding(crate::specs::ElapsedTimer::elapsed_timer_output))]
    pub fn output(self, t: f64, u: bool) -> f64
        ensures { result ≡ elapsed_timer_output self t u }
    {
        elapsed(entry_time(self.entry_time, self.prev_u, t, u), t)
    }

    #[tactic(auto, unfolding(crate::specs::ElapsedTimer::elapsed_timer_update))]
    pub fn update(mut self, t: f64, u: bool) -> Self
        ensures { result ≡ elapsed_timer_update self t u }
    {
        ElapsedTimerState {
            entry_time: entry_time(self.entry_time, self.prev_u, t, u),
            prev_u: u,
        }
    }
}
