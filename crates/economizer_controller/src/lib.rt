// The economizer of a multizone air handler (Guideline 36; Economizers.Controller as economizer_controller.rs has it), one sampled row at a time.
#![tactic(auto)]

pub mod types; // row, state, signals, commands, answer, step
pub mod verdict; // what a row is refused for
pub mod damper_limits; // the first pass: Subsequences.Limits.Common
pub mod enable; // the second pass: Subsequences.Enable
pub mod relief; // the third pass: Subsequences.Modulations.Reliefs
pub mod step; // a fresh state, signals, commands, the next state, and the row itself
