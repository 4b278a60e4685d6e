// The economizer's loop: that of `damper_limits_trace` in economizer_controller.rs, CDL.Reals.PIDWithReset as a PI controller sampled by forward Euler.
// Beside the freeze loop, since its limits turn a NaN into a number and its state remembers a trigger; the sums are PidState's.
ghost use Rattle.std.specs.Prelude.{◌≡◌};
ghost use Rattle.reals.specs.Pid.{pid_with_reset_new, pid_with_reset_output, pid_with_reset_update};

use crate::limits::clamp;
use crate::pid::PidState;
use crate::seen::gap;
use crate::switch::switch;

#[derive(Clone, Copy)]
pub struct PidWithResetState {
    pub integral: f64,
    pub prev_t: Option<f64>,
    pub previous_trigger: bool,
}

impl PidWithResetState {
    pub const Y_MIN: f64 = PidState::Y_MIN;

    pub const Y_MAX: f64 = PidState::Y_MAX;

    pub const RESET: f64 = 0.0;

    #[tactic(auto, unfolding(crate::specs::Pid::pid_with_reset_new))]
    pub fn new() -> Self
        ensures { result ≡ pid_with_reset_new }
    {
        PidWithResetState {
            integral: 0.0,
            prev_t: None,
            previous_trigger: false,
        }
    }

    #[tactic(auto, unfolding(crate::specs::Pid::pid_with_reset_output))]
    pub fn output(self, setpoint: f64, measurement: f64) -> f64
        ensures { result ≡ pid_with_reset_output self setpoint measurement }
    {
        let unlimited = PidState::unlimited(setpoint - measurement, self.integral);
        clamp(unlimited, Self::Y_MIN, Self::Y_MAX)
    }

    // A rising trigger, on the first row too, resets the integral after that row's output.
    #[tactic(auto, unfolding(crate::specs::Pid::pid_with_reset_update))]
    pub fn update(mut self, t: f64, setpoint: f64, measurement: f64, trigger: bool) -> Self
        ensures { result ≡ pid_with_reset_update self t setpoint measurement trigger }
    {
        let error = setpoint - measurement;
        let unlimited = PidState::unlimited(error, self.integral);
        let limited = clamp(unlimited, Self::Y_MIN, Self::Y_MAX);
        let dt = gap(self.prev_t, t);
        let stepped = PidState::integrated(self.integral, error, unlimited, limited, dt);
        let reset = Self::RESET - PidState::K * error;
        let next = switch(trigger & !self.previous_trigger, reset, stepped);
        PidWithResetState {
            integral: next,
            prev_t: Some(t),
            previous_trigger: trigger,
        }
    }
}
