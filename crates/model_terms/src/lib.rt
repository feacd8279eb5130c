//! The terms that instances are stated in: lists, laws of demand, positions, cost rates, names, and their limits.
#![tactic(auto)]

mod grid;
mod items;
pub mod limits;

pub use grid::{above_zero, low_after, positions_from};
pub use items::{Amounts, Items, Laws, Positions};
