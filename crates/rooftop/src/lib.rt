// One rooftop row: the economizer, freeze protection and the relief fan group as one sequence, one sampled row at a time.
#![tactic(auto)]

pub mod types; // row, state, commands, answer, step
pub mod wiring; // each sequence's row, made of the joined one
pub mod verdict; // what a joined row is refused for
pub mod step; // a start, and the row itself
pub mod lent; // the row on a window whose arrays are lent, without a copy
