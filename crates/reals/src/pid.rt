// The freeze loop: `PidState` of freeze_protection.rs, CDL.Reals.PID as a PI controller sampled by forward Euler.
ghost use Rattle.std.specs.Prelude.{◌≡◌};
ghost use Rattle.reals.specs.Pid.{pid_new, pid_unlimited, pid_integrated, pid_output, pid_update};

use crate::limits::limit;
use crate::seen::gap;

#[derive(Clone, Copy)]
pub struct PidState {
    pub integral: f64,
    pub prev_t: Option<f64>,
}

impl PidState {
    pub const K: f64 = 1.0;

    pub const TI: f64 = 0.5;

    pub const NI: f64 = 0.9;

    pub const Y_MIN: f64 = 0.0;

    pub const Y_MAX: f64 = 1.0;

    #[tactic(auto, unfolding(crate::specs::Pid::pid_new))]
    pub fn new() -> Self
        ensures { result ≡ pid_new }
    {
        PidState {
            integral: 0.0,
            prev_t: None,
        }
    }

    // The controller's output before its limits.
    #[tactic(auto, unfolding(crate::specs::Pid::pid_unlimited))]
    pub fn unlimited(error: f64, integral: f64) -> f64
        ensures { result ≡ pid_unlimited error integral }
    {
        Self::K * error + integral
    }

    // The integral after a step of dt seconds, less what the limits cut off (anti-windup).
    #[tactic(auto, unfolding(crate::specs::Pid::pid_integrated))]
    pub fn integrated(integral: f64, error: f64, unlimited: f64, limited: f64, dt: f64) -> f64
        ensures { result ≡ pid_integrated integral error unlimited limited dt }
    {
        let anti_windup_gain = (unlimited - limited) / (Self::K * Self::NI);
        let corrected_error = error - anti_windup_gain;
        integral + (Self::K / Self::TI) * corrected_error * dt
    }

    #[tactic(auto, unfolding(crate::specs::Pid::pid_output))]
    pub fn output(self, setpoint: f64, measurement: f64) -> f64
        ensures { result ≡ pid_output self setpoint measurement }
    {
        let unlimited = PidState::unlimited(setpoint - measurement, self.integral);
        limit(unlimited, Self::Y_MIN, Self::Y_MAX)
    }

    #[tactic(auto, unfolding(crate::specs::Pid::pid_update))]
    pub fn update(mut self, t: f64, setpoint: f64, measurement: f64) -> Self
        ensures { result ≡ pid_update self t setpoint measurement }
    {
        let error = setpoint - measurement;
        let unlimited = PidState::unlimited(error, self.integral);
        let limited = limit(unlimited, Self::Y_MIN, Self::Y_MAX);
        let dt = gap(self.prev_t, t);
        let next = PidState::integrated(self.integral, error, unlimited, limited, dt);
        PidState {
            integral: next,
            prev_t: Some(t),
        }
    }
}
