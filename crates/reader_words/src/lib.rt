// What C holds of the row reader: the fields of each type in their order, as words of 8 bytes that a caller in C can hold. Written by tools/words.
#![tactic(auto)]

pub mod kind;
pub mod phase;
pub mod row_reader;
