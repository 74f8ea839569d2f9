// Theory alone: what is read, given and left open by a Top that may read so many blocks (specs/Reading), and its laws (proofs).
#![tactic(auto)]
