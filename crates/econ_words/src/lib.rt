// What C holds of the economizer: the fields of each type in their order, as words of 8 bytes that a caller in C can hold. Written by tools/words.
#![tactic(auto)]

pub mod damper_limits;
pub mod economizer;
pub mod economizer_commands;
pub mod economizer_row;
pub mod economizer_signals;
pub mod enable;
pub mod enable_limits;
pub mod enable_signals;
