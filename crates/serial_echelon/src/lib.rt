//! Serial systems: the solver's certificate, with the levels of each period's echelons.
#![tactic(auto)]

mod solve;

pub use solve::solve_serial;
