// No code: demands 1 and 3 and the proved rows, stated in specs/ and proved in proofs/.
#![tactic(auto)]
