// CDL.Reals.Line, as `buildings_line` of cdl_recurrences.rs works it.
ghost use Rattle.std.specs.Prelude.{◌≡◌};
ghost use Rattle.reals.specs.Line.{buildings_line};

use crate::limits::clamp;

// The line through (x1, f1) and (x2, f2) at u, which is limited to x1 .. x2 first.
#[tactic(auto, unfolding(crate::specs::Line::buildings_line))]
pub fn buildings_line(x1: f64, f1: f64, x2: f64, f2: f64, u: f64) -> f64
    ensures { result ≡ buildings_line x1 f1 x2 f2 u }
{
    let x_lim = clamp(u, x1, x2);
    let slope = (f2 - f1) / (x2 - x1);
    let intercept = f2 - slope * x2;
    intercept + slope * x_lim
}
