// Six rooftop units on one board, each with a waiting line of four joined rows, of which each tick serves one.
#![tactic(auto)]

pub mod types; // the board, and what a tick serves
pub mod lines; // the waiting lines: a row joins one, and the next in turn leaves
pub mod step; // a start, an offer, a tick
