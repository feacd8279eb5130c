//! The entries of the certificate of an average cost, position by position, in tables that its caller keeps.
#![tactic(auto)]

mod bound;
mod cells;
mod entries;
mod gain;
mod laws;
mod pair;
mod place;
mod points;
mod tables;
mod terms;

pub use points::Points;
pub use tables::{cells_of, sums_of};
