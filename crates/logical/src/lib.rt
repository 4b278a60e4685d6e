// CDL.Logical blocks, one row at a time: the state goes in by value, as `mut self`, which is the form asked for, and the next one comes back. A block with unused
// bytes between its fields hands back a struct made anew from them: a copy of the one that came in would copy those bytes too, at every row. Blocks have the
// fields of the Rust's records, so that the time of an entry and the input before stand beside each other in several.
#![tactic(auto)]

pub mod edge; // CDL.Logical.Edge
pub mod latch; // CDL.Logical.Latch
pub mod pre; // CDL.Logical.Pre
pub mod timer; // what the timers share
pub mod elapsed_timer; // CDL.Logical.Timer, its output y
pub mod held_timer; // CDL.Logical.Timer, its outputs passed and y: freeze_protection.rs
pub mod hour_timer; // the timer of stage 2's hour: CDL.Logical.Timer, or one that runs on when its input falls
pub mod present_timer; // the timer of relief_fan_group.rs, which does not hold its pass
pub mod true_false_hold; // CDL.Logical.TrueFalseHold
pub mod true_delay; // CDL.Logical.TrueDelay with delayOnInit=false: economizer_controller.rs
pub mod true_delay_on_init; // CDL.Logical.TrueDelay with delayOnInit=true: relief_fan_group.rs
