// The orders among which the next fan to start, or to stop, is the smallest.
ghost use Rattle.std.specs.Prelude.{◌≡◌};
ghost use Rattle.relief_fans.specs.Orders.{pro1, pro2, swi, distance};

use reals::sign::abs;
use reals::switch::{bool_to_real, switch};
use std::array;

// What is added to the order of a fan that may not be chosen, so that every fan that may be chosen comes before it.
pub const BEHIND: f64 = 5.0;

// The orders of the enabled fans that are not proven on; 0, or minus the order, for the others.
#[tactic(auto, unfolding(crate::specs::Orders::pro1))]
pub fn pro1(gai: [f64; 4], ena_rel: [f64; 4], proof: [bool; 4]) -> [f64; 4]
    ensures { result ≡ pro1 gai ena_rel proof }
{
    array::from_fn(|i| {
        let sub2 = ena_rel[i] - bool_to_real(proof[i]);
        gai[i] * sub2
    })
}

// The orders of the enabled fans that are proven on; 0 for the others.
#[tactic(auto, unfolding(crate::specs::Orders::pro2))]
pub fn pro2(gai: [f64; 4], proof: [bool; 4]) -> [f64; 4]
    ensures { result ≡ pro2 gai proof }
{
    array::from_fn(|i| gai[i] * bool_to_real(proof[i]))
}

// The orders with those marked put behind the others: `swi` for the next fan to start, `swi1` for the next to stop.
#[tactic(auto, unfolding(crate::specs::Orders::swi))]
pub fn swi(marked: [bool; 4], order: [f64; 4]) -> [f64; 4]
    ensures { result ≡ swi marked order }
{
    array::from_fn(|i| switch(marked[i], order[i] + BEHIND, order[i]))
}

// How far each fan's order is from the next one's: 0 for the next fan.
#[tactic(auto, unfolding(crate::specs::Orders::distance))]
pub fn distance(gai: [f64; 4], next_order: f64) -> [f64; 4]
    ensures { result ≡ distance gai next_order }
{
    gai.map(|order| abs(order - next_order))
}
