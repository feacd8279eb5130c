//! What `stock` prints of its instances, and the messages of its refusals.
#![tactic(auto)]

mod average;
mod bracket;
mod demand;
mod faults;
mod finite;
mod help;
mod laws;
mod lots;
mod network;
mod news;
mod periods;
mod pieces;
mod reports;
mod serial;
mod trial;
mod verdicts;

pub use bracket::bracket_report;
pub use demand::{demand_text, has_laws};
pub use faults::{Fault, cannot_write_text, fault_text};
pub use finite::shapes_go_by_periods;
pub use help::help_text;
pub use network::{push_period, push_total, row_text};
pub use pieces::push_number;
pub use reports::{push_span, report};
pub use serial::levels_go_by_periods;
pub use trial::{push_certified, push_last, push_number_tried, push_run};
pub use verdicts::{accepted_text, rejection_text};
