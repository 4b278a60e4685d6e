// `MovingAverageState` of relief_fan_group.rs: CDL.Reals.MovingAverage with delta = 300 s, a state by value.
ghost use Rattle.std.specs.Prelude.{◌≡◌};
ghost use Rattle.moving_average.specs.Lent.{joined};
ghost use Rattle.moving_average.specs.State.{moving_average_new, moving_average_output, moving_average_is_full, moving_average_update};

use crate::lent::Integrator;

// The points of the window are the first `count` entries of `times` and `integrals`, oldest first: fixed memory and no
// heap, where the Rust has a list. The two stand side by side, as C lends them.
#[derive(Clone, Copy)]
pub struct MovingAverageState {
    pub t_start: f64,
    pub prev_t: Option<f64>,
    pub mu: f64,
    pub times: [f64; 512],
    pub integrals: [f64; 512],
    pub count: usize,
}

impl MovingAverageState {
    // The time that the mean is taken over, in seconds.
    pub const DELTA: f64 = 300.0;

    // The shortest time that a mean is taken over.
    pub const MIN_DELTA: f64 = 1e-5;

    // What is added to the time since the start while that is below DELTA.
    pub const START_OFFSET: f64 = 1e-3;

    // Helper: the state without its arrays, which can then be lent beside it.
    pub fn integrator(self) -> Integrator
        ensures { joined result self.times self.integrals ≡ self }
    {
        Integrator {
            t_start: self.t_start,
            prev_t: self.prev_t,
            mu: self.mu,
            count: self.count,
        }
    }

    // Before row 0.
    #[tactic(auto, unfolding(crate::specs::State::moving_average_new))]
    pub fn new() -> Self
        ensures { result ≡ moving_average_new }
    {
        Self {
            t_start: 0.0,
            prev_t: None,
            mu: 0.0,
            times: [0.0; 512],
            integrals: [0.0; 512],
            count: 0,
        }
    }

    // The mean of the input over the last 300 s.
    pub fn output(self, t: f64, input: f64) -> f64
        ensures { result ≡ moving_average_output self t input }
    {
        self.integrator()
            .output(&self.times, &self.integrals, t, input)
    }

    // Whether the window has no room for a row at t: refusal 4.
    pub fn is_full(self, t: f64) -> bool
        ensures { result ≡ moving_average_is_full self t }
    {
        self.integrator().is_full(&self.times, t)
    }

    // The state after a row; where the window is full, the state as it was.
    pub fn update(mut self, t: f64, input: f64) -> Self
        ensures { result ≡ moving_average_update self t input }
    {
        let next = self
            .integrator()
            .update(&mut self.times, &mut self.integrals, t, input);
        Self {
            t_start: next.t_start,
            prev_t: next.prev_t,
            mu: next.mu,
            count: next.count,
            ..self
        }
    }
}
