// The two limiters: that of the Rust standard library, which keeps a NaN, and that of cdl_recurrences.rs, which does not.
ghost use Rattle.std.specs.Prelude.{◌≡◌};
ghost use Rattle.reals.specs.Limits.{limit, clamp};

use crate::order::{greater, lesser};
use crate::switch::switch;

// `f64::clamp`: x, or the limit that it lies beyond. A NaN stays a NaN. The library's asks that min ≤ max; this takes any limits.
#[tactic(auto, unfolding(crate::specs::Limits::limit))]
pub fn limit(x: f64, min: f64, max: f64) -> f64
    ensures { result ≡ limit x min max }
{
    let raised = switch(x < min, min, x);
    switch(raised > max, max, raised)
}

// `clamp` of cdl_recurrences.rs. A NaN becomes the upper limit.
#[tactic(auto, unfolding(crate::specs::Limits::clamp))]
pub fn clamp(value: f64, min: f64, max: f64) -> f64
    ensures { result ≡ clamp value min max }
{
    greater(min, lesser(value, max))
}
