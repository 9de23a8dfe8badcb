// No code: what the user may rely on, sentence by sentence, of all that the contracts below allow. The words stand in specs/, the theorems in proofs/.
#![tactic(auto)]
