// No code: what the check does not look at is stated in specs/ and proved in proofs/.
#![tactic(auto)]
