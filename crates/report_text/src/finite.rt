// The lines of finite horizons.
ghost use Rattle.std.specs.Prelude.{◌≡◌, ◌+◌, ◌++◌, OnOk, codes};
ghost use Rattle.std.specs.List.{flat_map, range_with_len};
ghost use Rattle.decision_model.specs.Finite.{IsValidFinite};
ghost use Rattle.decision_model.specs.declared.finite.Finite.{Finite};
ghost use Rattle.value_cert.specs.FiniteRules.{cells_of, HasEachRow};
ghost use Rattle.value_cert.specs.declared.finite.FiniteCert.{FiniteCert};
ghost use Rattle.report_text.specs.Demand.{demand_text_of};
ghost use Rattle.report_text.specs.Finite.{move_line, move_lines, shape_text, period_lines, row_lines, rows_lines, shapes_lines};

use crate::periods::push_periods;
use crate::pieces::{push_number, push_positions};
use decision_model::{Finite, Instance};
use finite_ss::{Shape, shape_of_cells};
use fraction128::{Memory, Text};
use std::alloc::Global;
use value_cert::{FiniteCell, FiniteCert, FiniteRow};

// Appends the line of a position, if it orders.
fn push_move(out: &mut Text, cell: &FiniteCell) -> Result<(), Memory>
    ensures { OnOk result (out.new ≡ out.old ++ move_line cell.now) }
{
    if cell.at < cell.to {
        return push_positions(out, "at ", cell.at, " to ", cell.to);
    }
    Ok(())
}

// Appends a line for each position that orders, from the lowest up.
fn push_moves(out: &mut Text, cells: &[FiniteCell]) -> Result<(), Memory>
    ensures { OnOk result (out.new ≡ out.old ++ move_lines cells.now) }
{
    for place in (0..cells.len()).rev() {
        push_move(out, &cells[place])?;
    }
    Ok(())
}

// Appends the shape of cells, and in a table the positions that order.
fn push_shape(out: &mut Text, shape: Shape, cells: &[FiniteCell]) -> Result<(), Memory>
    ensures { OnOk result (out.new ≡ out.old ++ shape_text shape cells.now) }
{
    match shape {
        Shape::Pair { low, high } => push_positions(out, " s ", low, " S ", high),
        Shape::Never => out.push(b" never\n"),
        Shape::Table => {
            out.push(b" table\n")?;
            push_moves(out, cells)
        }
    }
}

// Appends the lines of a period.
fn push_row(out: &mut Text, row: &FiniteRow) -> Result<(), Memory>
    ensures { OnOk result (out.new ≡ out.old ++ row_lines row.now) }
{
    let cells = row.cells.as_slice();
    out.push(b"period ")?;
    push_number(out, row.period)?;
    push_shape(out, shape_of_cells(cells), cells)
}

// Appends the lines of all periods, from the first to the last.
fn push_rows(out: &mut Text, rows: &[FiniteRow]) -> Result<(), Memory>
    ensures { OnOk result (out.new ≡ out.old ++ rows_lines rows.now) }
{
    for place in (0..rows.len()).rev() {
        push_row(out, &rows[place])?;
    }
    Ok(())
}

// Appends the shape of each period.
pub fn push_policy(out: &mut Text, cert: &FiniteCert) -> Result<(), Memory>
    ensures { OnOk result (out.new ≡ out.old ++ shapes_lines cert.now.rows) }
{
    out.push(b"kind finite\n")?;
    push_rows(out, cert.rows.as_slice())
}

// Appends the law of the lead time of each period.
pub fn push_demand(alloc: Global, out: &mut Text, finite: &Finite) -> Result<(), Memory>
    requires { IsValidFinite finite.now }
    ensures { OnOk result (out.new ≡ out.old ++ demand_text_of (Instance.Finite finite.now)) }
{
    let lead = finite.lead as usize;
    push_periods(alloc, out, finite.laws.as_slice(), finite.periods, lead + 1)
}

/// The lines of a certificate that has each row are those of the shapes of the periods, from 1 up.
pub fn shapes_go_by_periods()
    ensures { (finite : Finite) (c : FiniteCert) → HasEachRow finite c
        → shapes_lines c.rows ≡ codes "kind finite\n" ++ flat_map (λ place. period_lines (place + 1) (cells_of c.rows (place + 1))) (range_with_len 0 finite.periods) }
{}
