//! Lot sizing: a least plan of orders for known demand, and the dual prices that prove it least.
#![tactic(auto)]

mod solve;

pub use solve::solve_lots;
