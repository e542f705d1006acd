// Filters lose nothing, over the bytes of the routines: the proof, in `proofs/`; there is no code.
#![tactic(auto)]
