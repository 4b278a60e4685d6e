// Nothing runs here: the crate holds the words in which it is answered whether the relief fans can miss a stage (specs/), and the answer (proofs/).
#![tactic(auto)]
