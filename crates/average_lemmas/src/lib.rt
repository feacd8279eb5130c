//! Lemmas of the average kind, that only proofs cite: what a certificate that breaks no rule says of every number of
//! periods, how the average cost is found, that it is the only one, and how large the numbers are.
#![tactic(auto)]
