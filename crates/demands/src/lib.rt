// The demands: the plain list, histories of calls, and that the calls answer as the list does.
#![tactic(auto)]
