//! Laws of demand: how likely each demand is, by whole weights, and the laws of sums of demands.
#![tactic(auto)]

mod copies;
mod law;
mod named;
mod points;
mod sums;

pub use law::{Law, LawErr, LawFault};
pub use sums::{SumErr, convolve, lead_into, lead_sum};
