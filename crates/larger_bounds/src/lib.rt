// No code: how an answer stands on a larger machine is stated in specs/ and proved in proofs/.
#![tactic(auto)]
