// The user's demands on the sender, as claims about the definitions of `model` (specs/) and their proofs (proofs/). There is no code.
#![tactic(auto)]
