// What woldgrater_c exports to a controller in C or Rust (include/woldgrater.h): a call a row. Callers prove nothing, so nothing is required of them but what their types say.
#![tactic(auto)]

pub mod answered;
pub mod econ;
pub mod freeze;
pub mod joined;
pub mod relief;
pub mod units;
