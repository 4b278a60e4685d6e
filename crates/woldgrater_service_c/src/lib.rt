// What displays, loggers and testers link (include/woldgrater.h): an export for each call of the library woldgrater_service, with its clauses.
#![tactic(auto)]

pub mod freeze; // signals and lines of freeze protection
pub mod econ; // those of the economizer
pub mod relief; // those of the relief fan group
pub mod play; // a whole row file in one call
pub mod chunks; // a row file chunk by chunk, in memory that the caller holds
