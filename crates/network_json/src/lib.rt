//! Networks read from a JSON object, with the first fault of one that says none, and written as such an object.
#![tactic(auto)]

mod names;
mod network;
mod network_values;
mod nodes;
mod order_rules;
mod pauses;
mod sources;

pub use network::{check_network, has_network_keys, network_value, read_network};
