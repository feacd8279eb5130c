//! The least of listed values over windows of positions, and the cost of positions step by step: sweeps of a model's tables
//! that know no model.
#![tactic(auto)]

mod room;
mod stock;
mod sweep;
mod walk;
mod window;

pub use sweep::Sweep;
pub use walk::Walk;
pub use window::Window;
