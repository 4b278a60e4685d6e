// CDL.Logical.TrueDelay with delayOnInit=true: `TrueDelayState` of relief_fan_group.rs. It waits on the first row too.
ghost use Rattle.std.specs.Prelude.{◌≡◌};
ghost use Rattle.logical.specs.TrueDelayOnInit.{true_delay_on_init_new, true_delay_on_init_output, true_delay_on_init_update};

use crate::timer::entry_time;
use reals::seen::elapsed;

#[derive(Clone, Copy)]
pub struct TrueDelayOnInitState {
    pub delay_time: f64,
    pub entry_time: Option<f64>,
    pub previous_u: bool,
}

impl TrueDelayOnInitState {
    #[tactic(auto, unfolding(crate::specs::TrueDelayOnInit::true_delay_on_init_new))]
    pub fn new(delay_time: f64) -> Self
        ensures { result ≡ true_delay_on_init_new delay_time }
    {
        TrueDelayOnInitState {
            delay_time,
            entry_time: None,
            previous_u: false,
        }
    }

    // The input is true here and has been for the delay.
    #[tactic(auto, unfolding(crate::specs::TrueDelayOnInit::true_delay_on_init_output))]
    pub fn output(self, t: f64, u: bool) -> bool
        ensures { result ≡ true_delay_on_init_output self t u }
    {
        u & self.entry_time.is_some() & (elapsed(self.entry_time, t) >= self.delay_time)
    }

    #[tactic(auto, unfolding(crate::specs::TrueDelayOnInit::true_delay_on_init_update))]
    pub fn update(mut self, t: f64, u: bool) -> Self
        ensures { result ≡ true_delay_on_init_update self t u }
    {
        TrueDelayOnInitState {
            delay_time: self.delay_time,
            entry_time: entry_time(self.entry_time, self.previous_u, t, u),
            previous_u: u,
        }
    }
}
