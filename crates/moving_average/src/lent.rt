// The moving average on arrays that the caller lends, so that a row copies none of them. Helpers: the public operations are those of state.rt.
// The two arrays are lent by a reference each, as the C calls give them: a struct of both references needs two clauses more in each function.
ghost use Rattle.std.specs.Prelude.{◌≡◌, ◌+◌, ◌≤◌, ◌<◌, min, List, Float, length, take, get_or};
ghost use Rattle.std.specs.Option.{IfSome};
ghost use Rattle.moving_average.specs.State.{start_time, mu_now, averaged_time, moving_average_output, moving_average_is_full, moving_average_update};
ghost use Rattle.moving_average.specs.Lent.{joined, place};

use crate::integral::mu_at;
use crate::state::MovingAverageState;
use crate::window::{ends_at, old_points, put, slot};
use reals::order::greater;
use reals::seen::elapsed;

// The fields of `MovingAverageState` but its arrays.
#[derive(Clone, Copy)]
pub struct Integrator {
    pub t_start: f64,
    pub prev_t: Option<f64>,
    pub mu: f64,
    pub count: usize,
}

impl Integrator {
    // The time of the first row.
    #[tactic(auto, unfolding(crate::specs::State::start_time))]
    fn start(self, t: f64) -> f64
        ensures { result ≡ start_time self.prev_t self.t_start t }
    {
        if self.prev_t.is_none() {
            t
        } else {
            self.t_start
        }
    }

    // The integral up to t.
    #[tactic(auto, unfolding(crate::specs::State::mu_now))]
    fn mu_now(self, t: f64, input: f64) -> f64
        ensures { result ≡ mu_now self.prev_t self.mu t input }
    {
        self.mu + input * elapsed(self.prev_t, t)
    }

    // How many points the arrays hold.
    fn len(self) -> usize
        ensures { result ≡ min self.count 512 }
    {
        self.count.min(512)
    }

    // How long the averaged time is.
    #[tactic(auto, unfolding(crate::specs::State::averaged_time))]
    fn averaged_time(start: f64, first: f64, t: f64) -> f64
        ensures { result ≡ averaged_time start first t }
    {
        if t >= start + MovingAverageState::DELTA {
            let from = greater(greater(t - MovingAverageState::DELTA, first), start);
            greater(t - from, MovingAverageState::MIN_DELTA)
        } else {
            t - start + MovingAverageState::START_OFFSET
        }
    }

    // Helper: `MovingAverageState::output`.
    pub fn output(self, times: &[f64; 512], integrals: &[f64; 512], t: f64, input: f64) -> f64
        ensures { result ≡ moving_average_output (joined self times.now integrals.now) t input }
    {
        let start = self.start(t);
        let mu = self.mu_now(t, input);
        let n = self.len();
        let (times, integrals) = (&times[..n], &integrals[..n]);
        let old = mu_at(times, integrals, t - MovingAverageState::DELTA, t, mu);
        let first = times.first().copied().unwrap_or(start);
        (mu - old) / Self::averaged_time(start, first, t)
    }

    // Where a row at t is put: how many points go, and the index of the new one; none where there is no room.
    #[tactic(auto, using(crate::proofs::Loops::gone_le, crate::proofs::Held::last_is_front, crate::proofs::Held::slot_le, crate::proofs::Held::slot_room), unfolding(crate::specs::Lent::place))]
    fn place(self, times: &[f64; 512], t: f64) -> Option<(usize, usize)>
        ensures place { result ≡ place t self.count times.now }
        ensures in_range { IfSome result (λ p. (p.0 + p.1 ≤ 512) × (p.1 < 512)) }
    {
        let n = self.count;
        let times = times.get(..n)?;
        let k = old_points(times, t - MovingAverageState::DELTA);
        let again = ends_at(times, t);
        if (n - k == 512) & !again {
            return None;
        }
        Some((k, slot(n - k, again)))
    }

    // Helper: `MovingAverageState::is_full`.
    #[tactic(auto, using(crate::proofs::Held::full_asked))]
    pub fn is_full(self, times: &[f64; 512], t: f64) -> bool
        ensures { (integrals : List Float) → length integrals ≡ 512
            → result ≡ moving_average_is_full (joined self times.now integrals) t }
    {
        self.place(times, t).is_none()
    }

    // Helper: `MovingAverageState::update`.
    pub fn update(
        self,
        times: &mut [f64; 512],
        integrals: &mut [f64; 512],
        t: f64,
        input: f64,
    ) -> Integrator
        ensures { joined result times.new integrals.new
            ≡ moving_average_update (joined self times.old integrals.old) t input }
    {
        let Some((k, j)) = self.place(times, t) else {
            return self;
        };
        let mu = self.mu_now(t, input);
        put(times, k, j, t);
        put(integrals, k, j, mu);
        Integrator {
            t_start: self.start(t),
            prev_t: Some(t),
            mu,
            count: j + 1,
        }
    }
}
