// The tree as a whole: definitions in specs/, their theory in proofs/.
#![tactic(auto)]
