// Columns of row files: 21 wide, with a word in each, read and written by their forms, each the inverse of the other.
#![tactic(auto)]

pub mod scan; // a column, read: the number in it
pub mod column; // a column, written
pub mod forms; // the columns of a line by their forms
pub mod word; // the value of a word: a float, a signed number, a yes or no
pub mod line; // the end of a line, and a line of words
