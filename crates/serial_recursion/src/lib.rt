//! The backward recursion over the values of a serial system, period by period and echelon by echelon, in tables that its
//! caller keeps.
#![tactic(auto)]

mod echelons;
mod frame;
mod laws;
mod levels;
mod numbers;
mod orders;
mod rates;
mod recursion;
mod rows;
mod tables;
mod values;

pub use recursion::Recursion;
pub use tables::cells_of;
