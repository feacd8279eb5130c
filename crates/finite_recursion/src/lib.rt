//! The backward recursion over the values of a finite horizon, period by period and position by position, in tables that
//! its caller keeps.
#![tactic(auto)]

mod costs;
mod ends;
mod laws;
mod reach;
mod recursion;
mod row;
mod scales;
mod tables;

pub use laws::list_demands;
pub use recursion::{Found, Recursion};
pub use tables::{cells_of, lead_sums, sums_of};
