// What woldgrater_service_c exports to displays, loggers and testers (include/woldgrater.h). Callers prove nothing, so nothing is required of them but what their types say.
#![tactic(auto)]

pub mod line; // what a written line gives
pub mod freeze; // signals and lines of freeze protection
pub mod econ; // those of the economizer
pub mod relief; // those of the relief fan group
pub mod room; // the room that is asked of an output
pub mod play; // a whole row file in one call
pub mod lent; // the reader on arrays that a caller lends
pub mod chunks; // a row file chunk by chunk, in memory that the caller holds
