// Two packs that have one answer of the second check, and of what a reaction reaches. Statements in specs/, proofs in proofs/.
#![tactic(auto)]
