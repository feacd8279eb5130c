// The shape of a period's choices.
ghost use Rattle.std.specs.Prelude.{◌≡◌};
ghost use Rattle.value_cert.specs.FiniteRules.{cells_of};
ghost use Rattle.finite_ss.specs.Shapes.{all_order_to, shape_of, IsShape, HasOneRowOf};

use value_cert::{FiniteCell, FiniteCert};

/// What the choices of a period look like.
#[derive(Clone, Copy, Debug, PartialEq, Eq)]
pub enum Shape {
    /// All positions up to `low` order up to `high`, and all others stay.
    Pair { low: i64, high: i64 },
    /// No position orders.
    Never,
    /// Neither.
    Table,
}

// Whether each cell orders, up to `high`.
fn all_order(cells: &[FiniteCell], high: i64) -> bool
    ensures { result ≡ all_order_to high cells.now }
{
    for cell in cells {
        if !(cell.at < cell.to && cell.to == high) {
            return false;
        }
    }
    true
}

/// The shape of cells, from the highest position down.
pub fn shape_of_cells(cells: &[FiniteCell]) -> Shape
    ensures { result ≡ shape_of cells.now }
{
    for (place, cell) in cells.iter().enumerate() {
        if cell.at < cell.to {
            let below = &cells[place + 1..];
            if all_order(below, cell.to) {
                return Shape::Pair {
                    low: cell.at,
                    high: cell.to,
                };
            }
            return Shape::Table;
        }
    }
    Shape::Never
}

/// The shape of a period of a certificate that has just one row of it.
pub fn pairs(cert: &FiniteCert, t: u32) -> Shape
    requires { HasOneRowOf t cert.now.rows }
    ensures exact { result ≡ shape_of (cells_of cert.now.rows t) }
    ensures told { IsShape (cells_of cert.now.rows t) result }
{
    for row in cert.rows.as_slice() {
        if row.period == t {
            return shape_of_cells(row.cells.as_slice());
        }
    }
    Shape::Never
}
