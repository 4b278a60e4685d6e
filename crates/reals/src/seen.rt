// A time that may not have been seen yet, `Option<f64>` as in the Rust, and what is asked of it at a time t.
ghost use Rattle.std.specs.Prelude.{◌≡◌};
ghost use Rattle.reals.specs.Seen.{seen_above, seen_elapsed, seen_gap};

use crate::order::greater;

// The time seen, if any, is above t.
#[tactic(auto, unfolding(crate::specs::Seen::seen_above))]
pub fn above(seen: Option<f64>, t: f64) -> bool
    ensures { result ≡ seen_above seen t }
{
    seen.is_some_and(|p| t < p)
}

// t less the time seen; 0 if none was.
#[tactic(auto, unfolding(crate::specs::Seen::seen_elapsed))]
pub fn elapsed(seen: Option<f64>, t: f64) -> f64
    ensures { result ≡ seen_elapsed seen t }
{
    seen.map_or(0.0, |p| t - p)
}

// t less the time seen, and 0 where that is below 0 or none was seen: the gap between two rows.
#[tactic(auto, unfolding(crate::specs::Seen::seen_gap))]
pub fn gap(seen: Option<f64>, t: f64) -> f64
    ensures { result ≡ seen_gap seen t }
{
    seen.map_or(0.0, |p| greater(t - p, 0.0))
}
