// Economizer lines.
#![tactic(auto)]

pub mod econ; // the columns of a row and of an answer, their words, and a row answered
