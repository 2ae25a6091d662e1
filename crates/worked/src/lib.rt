// Document 01's worked examples, computed by the definitions of `model` (specs/), with their proofs (proofs/). There is no code.
#![tactic(auto)]
