// Nothing runs here: the crate holds the words in which a list of rows is read without state (specs/), and their laws (proofs/).
#![tactic(auto)]
