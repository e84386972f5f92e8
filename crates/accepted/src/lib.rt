// No code: what acceptance is worth is stated in specs/ and proved in proofs/.
#![tactic(auto)]
