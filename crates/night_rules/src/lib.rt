// No code: what the night's answer is worth is stated in specs/ and proved in proofs/.
#![tactic(auto)]
