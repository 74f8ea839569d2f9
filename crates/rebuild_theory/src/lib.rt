// The rebuilt tree.
#![tactic(auto)]
