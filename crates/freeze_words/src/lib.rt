// What C holds of freeze protection: the fields of each type in their order, as words of 8 bytes that a caller in C can hold. Written by tools/words.
#![tactic(auto)]

pub mod freeze;
pub mod freeze_calls;
pub mod freeze_commands;
pub mod freeze_left;
pub mod freeze_row;
pub mod freeze_signals;
