// Freeze protection of a multizone air handler (Guideline 36; FreezeProtection.mo as freeze_protection.rs has it), one sampled row at a time.
#![tactic(auto)]

pub mod types; // row, state, signals, what is left on the timers, commands, answer, step
pub mod constants; // temperatures in kelvin, times in seconds
pub mod verdict; // what a row is refused for
pub mod signals; // every block's output at a row
pub mod commands; // the outputs, worked from the signals
pub mod step; // a fresh state, the next state, and the row itself
pub mod left; // how long until each timer passes
