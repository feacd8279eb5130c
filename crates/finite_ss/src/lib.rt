//! Finite horizons: the solver's certificate, and the shape of its periods' choices.
#![tactic(auto)]

mod laws;
mod shapes;
mod solve;

pub use laws::{periods_have_one_row, shapes_tell_choices, solved_rows_are_pairs};
pub use shapes::{Shape, pairs, shape_of_cells};
pub use solve::solve_finite;
