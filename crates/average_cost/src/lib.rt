//! Average cost: a pair of positions for every number of periods, and the relative values that prove it least.
#![tactic(auto)]

mod gain;
mod grid;
mod moves;
mod relative;
mod solve;
mod tables;

pub use relative::span;
pub use solve::solve_average;
