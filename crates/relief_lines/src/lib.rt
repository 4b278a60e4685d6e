// Relief lines.
#![tactic(auto)]

pub mod relief; // the columns of a row and of an answer, their words, and a row answered
