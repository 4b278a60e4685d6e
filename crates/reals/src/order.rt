// The greater and the lesser of two numbers, and the smallest of four. Of two zeros each gives the first: the library's `max` and
// `min` leave open which.
ghost use Rattle.std.specs.Prelude.{◌≡◌};
ghost use Rattle.reals.specs.Order.{greater, lesser, smallest};

use crate::switch::switch;

// The greater of two numbers: `a.max(b)` in Rust.
#[tactic(auto, unfolding(crate::specs::Order::greater))]
pub fn greater(a: f64, b: f64) -> f64
    ensures { result ≡ greater a b }
{
    switch(a.is_nan(), b, switch(a < b, b, a))
}

// The lesser of two numbers: `a.min(b)` in Rust.
#[tactic(auto, unfolding(crate::specs::Order::lesser))]
pub fn lesser(a: f64, b: f64) -> f64
    ensures { result ≡ lesser a b }
{
    switch(a.is_nan(), b, switch(b < a, b, a))
}

// The smallest of four numbers: `min4` in relief_fan_group.rs.
#[tactic(auto, unfolding(crate::specs::Order::smallest))]
pub fn smallest(values: [f64; 4]) -> f64
    ensures { result ≡ smallest values }
{
    values.into_iter().fold(f64::INFINITY, lesser)
}
