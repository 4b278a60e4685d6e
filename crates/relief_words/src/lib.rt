// What C holds of the relief fan group: the fields of each type in their order, as words of 8 bytes that a caller in C can hold. Written by tools/words.
#![tactic(auto)]

pub mod damper_enable;
pub mod pressure_control;
pub mod relief;
pub mod relief_blocks;
pub mod relief_commands;
pub mod relief_left;
pub mod relief_row;
pub mod relief_signals;
pub mod stage_down;
pub mod stage_up;
