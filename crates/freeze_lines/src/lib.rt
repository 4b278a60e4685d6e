// Freeze lines.
#![tactic(auto)]

pub mod freeze; // the columns of a row and of an answer, their words, and a row answered
