//! Whether an instance keeps every rule of its kind, so that it may be given to its solver, to the checker or to the
//! simulator.
#![tactic(auto)]

mod amounts;
mod average;
mod finite;
mod instance;
mod laws;
mod lots;
mod network;
mod nodes;
mod positions;
mod rates;
mod serial;

pub use instance::is_valid;
