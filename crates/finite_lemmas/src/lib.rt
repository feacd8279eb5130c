//! Lemmas of finite horizons, that only proofs cite: what a certificate that breaks no rule names costs least, how large
//! values can be, and the form of the solver's choices.
#![tactic(auto)]
