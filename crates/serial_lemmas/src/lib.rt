//! Lemmas of serial systems, that only proofs cite: what a certificate that breaks no rule names costs least, how large
//! values can be, and that the solver's costs are convex.
#![tactic(auto)]
