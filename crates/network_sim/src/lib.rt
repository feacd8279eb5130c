//! The simulator of a network: all nodes, period by period.
#![tactic(auto)]

mod draws;
mod echelons;
mod errors;
mod house;
mod laws;
mod links;
mod orders;
mod pauses;
mod period;
mod rows;
mod sim;
mod state;
mod station;
mod stations;
mod supply;
mod wiring;

pub use errors::{RuleOver, SimErr};
pub use laws::totals_balance;
pub use rows::{NodeLine, Row};
pub use sim::Sim;
