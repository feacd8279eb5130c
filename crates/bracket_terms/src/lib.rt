//! What the rules of a bracket take of an instance, for its solver and its checker: the costs of all positions, the demands
//! that have a weight, and what keeping a position is worth.
#![tactic(auto)]

mod grid;
mod guess;
mod moves;
mod sizes;
mod terms;

pub use sizes::Sizes;
pub use terms::{Terms, add_product};
