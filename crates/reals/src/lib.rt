// f64: the functions of the Rust standard library that the sequences use, and the blocks of CDL.Reals.
#![tactic(auto)]

pub mod order; // greater, lesser, the smallest of four
pub mod sign; // finite, the sign bit, the absolute value
pub mod limits; // the two limiters
pub mod line; // CDL.Reals.Line
pub mod switch; // CDL.Reals.Switch, CDL.Conversions.BooleanToReal
pub mod seen; // a time, never seen or seen at
pub mod threshold; // CDL.Reals.GreaterThreshold, CDL.Reals.LessThreshold
pub mod hysteresis; // CDL.Reals.Hysteresis, the economizer's
pub mod kept_hysteresis; // the hysteresis of cdl_recurrences.rs
pub mod pid; // CDL.Reals.PID, the freeze loop
pub mod pid_with_reset; // CDL.Reals.PIDWithReset, the economizer's loop
