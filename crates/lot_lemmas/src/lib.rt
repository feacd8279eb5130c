//! Lemmas of lot plans, that only proofs cite: duality, the recursion over last order periods, planning horizons.
#![tactic(auto)]
