// The kinds of rows: the first line, what is carried from chunk to chunk, and the lines of a kind answered.
#![tactic(auto)]

pub mod kind; // the kinds, and the first line
pub mod types; // what is carried from chunk to chunk
pub mod rows; // the lines of a kind answered
