// `mu_at` of relief_fan_group.rs: the integral of the input at a past time, over the window's arrays, which are lent.
ghost use Rattle.std.specs.Prelude.{◌≡◌};
ghost use mathlib.Core.List.{zip_with};
ghost use Rattle.moving_average.specs.Window.{point};
ghost use Rattle.moving_average.specs.Integral.{on_line, integral_at};

// At t, on the line from (t0, m0) to (t1, m1).
#[tactic(auto, unfolding(crate::specs::Integral::on_line))]
pub fn on_line(t: f64, t0: f64, m0: f64, t1: f64, m1: f64) -> f64
    ensures { result ≡ on_line t (point t0 m0) (point t1 m1) }
{
    let den = t1 - t0;
    if den == 0.0 {
        m1
    } else {
        m0 + (m1 - m0) * ((t - t0) / den)
    }
}

// Helper: the integral at `target`, through the points and the present one.
pub fn mu_at(times: &[f64], integrals: &[f64], target: f64, t_now: f64, mu_now: f64) -> f64
    ensures { result ≡ integral_at target (zip_with point times.now integrals.now) (point t_now mu_now) }
{
    let mut points = times.iter().zip(integrals);
    let Some((&(mut t0), &(mut m0))) = points.next() else {
        return mu_now;
    };
    if target <= t0 {
        return m0;
    }
    for (&t1, &m1) in points {
        if target <= t1 {
            return on_line(target, t0, m0, t1, m1);
        }
        (t0, m0) = (t1, m1);
    }
    if target <= t_now {
        on_line(target, t0, m0, t_now, mu_now)
    } else {
        mu_now
    }
}
