// Theory alone: the sweep that presses a tour (specs/Sweep), the bytes of a pressed tour (specs/Pressed), and their laws (proofs).
#![tactic(auto)]
