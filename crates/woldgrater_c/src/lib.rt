// What a controller in C or Rust links (include/woldgrater.h): an export for each call of the library woldgrater, with its clauses.
#![tactic(auto)]

pub mod econ;
pub mod freeze;
pub mod relief;
