// What C holds of the joined row: the fields of each type in their order, as words of 8 bytes that a caller in C can hold. Written by tools/words.
#![tactic(auto)]

pub mod rooftop_commands;
pub mod rooftop_row;
pub mod rooftop_state;
