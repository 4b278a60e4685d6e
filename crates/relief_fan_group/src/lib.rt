// The relief fan group of a multizone air handler (Guideline 36; ReliefFanGroup.mo as relief_fan_group.rs has it), one sampled row at a time.
#![tactic(auto)]

pub mod types; // row, state, signals, what is left on the timers, commands, answer, step
pub mod constants; // speeds from 0 to 1, times in seconds
pub mod verdict; // what a row is refused for
pub mod signals; // every block's output at a row
pub mod commands; // the outputs, worked from the signals
pub mod step; // a fresh state, the next state, and the row itself
pub mod left; // how long until each timer passes
pub mod remembered; // what a state remembers of the alarms
pub mod lent; // the row on a window whose arrays are lent, without a copy
