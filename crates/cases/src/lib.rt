// Nothing runs here: the crate holds the cases that are proved, as one table (specs/), and the fact that covers it (proofs/).
#![tactic(auto)]
