// The row reader: bytes in, bytes out, for each kind of row.
#![tactic(auto)]

pub mod feed; // a chunk of any input, and the end of the input
