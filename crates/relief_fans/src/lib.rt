// The four relief fans of ReliefFanGroup.mo, as relief_fan_group.rs has them: what is worked fan by fan, over arrays of four.
#![tactic(auto)]

pub mod table; // which supply fan a relief fan is on, and its weight
pub mod flags; // flags, combined fan by fan
pub mod orders; // which fan is the next to start, or to stop
pub mod blocks; // a threshold, or a delay, for each fan
pub mod commands; // speeds and dampers
pub mod alarms; // alarms in a signed byte each
