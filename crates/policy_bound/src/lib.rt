//! The bound over all policies of a decision problem, proved once for every problem.
#![tactic(auto)]

mod laws;

pub use laws::{path_costs_add_up, policies_are_bounded, positions_are_states};
