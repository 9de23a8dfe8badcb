// No code: the published definition of a superbubble stands in specs/, and what follows from it in proofs/.
#![tactic(auto)]
