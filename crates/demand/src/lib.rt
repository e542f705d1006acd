// Demand 3 over the bytes of the routines: its proof, in `proofs/`; there is no code.
#![tactic(auto)]
