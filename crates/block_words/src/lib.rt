// What C holds of the blocks that states are made of: the fields of each type in their order, as words of 8 bytes that a caller in C can hold. Written by tools/words.
#![tactic(auto)]

pub mod edge;
pub mod held_timer;
pub mod hour_timer;
pub mod hysteresis;
pub mod integrator;
pub mod latch;
pub mod pid;
pub mod pid_with_reset;
pub mod pre;
pub mod present_timer;
pub mod seen;
pub mod threshold;
pub mod threshold_mode;
pub mod timer_output;
pub mod true_delay;
pub mod true_delay_on_init;
pub mod true_false_hold;
