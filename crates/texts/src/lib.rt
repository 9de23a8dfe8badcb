// No code: the text of each answer, as a list of bytes (specs/), and that a text determines what it is the text of (proofs/).
#![tactic(auto)]
