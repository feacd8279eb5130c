//! Networks: their nodes, what pauses at them, and when a network is valid.
#![tactic(auto)]

pub mod limits;
mod load;
mod network;
mod pauses;
mod shape;

pub use load::overloaded_node;
pub use model_terms::{Items, above_zero};
pub use network::{Demand, Link, Network, NodeSpec, Pause, Rule, Span, is_seeded};
pub use pauses::overlapping_span;
pub use shape::{count_paths, misshapen_node};
