// What a controller in C or Rust links for the board (include/woldgrater.h): an export for each of its calls of the library woldgrater, with its clauses.
#![tactic(auto)]

pub mod units;
