// Updates.
#![tactic(auto)]
