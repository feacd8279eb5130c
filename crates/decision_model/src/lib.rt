//! Instances of all kinds: what a decision or a simulation knows before it begins, and when it is valid.
//!
//! A kind is one file, here and in the specs: its type, its ranges, its grid of positions and its width number.
#![tactic(auto)]

mod average;
mod average_problem;
mod finite;
mod finite_problem;
mod instance;
mod kinds;
pub mod limits;
mod lots;
mod network;
mod news;
mod problem;
mod rules;
mod serial;
mod serial_problem;
mod wide_average;
mod width;

pub use average::{Average, average_cost_bound, has_demand, is_unit_demand};
pub use average_problem::AverageRun;
pub use finite::Finite;
pub use instance::{Instance, grid_fits, kind, width_ok};
pub use kinds::Kind;
pub use least_values::{Sweep, Walk, Window};
pub use lots::{LotSize, speculative_period};
pub use model_terms::{Amounts, Items, Laws, Positions, above_zero};
pub use network_model::{
    Demand, Link, Network, NodeSpec, Pause, Rule, Span, is_seeded, misshapen_node,
    overlapping_span, overloaded_node,
};
pub use problem::Problem;
pub use serial::Serial;
pub use wide_average::{wide_grid_fits, wide_width_ok};
