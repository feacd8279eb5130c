// Laws of demand as text.
ghost use Rattle.std.specs.Prelude.{◌≡◌, ◌++◌, OnOk};
ghost use Rattle.report_text.specs.Laws.{demand_line, demand_lines, total_line, law_text};

use crate::pieces::push_number;
use demand_law::Law;
use fraction128::{Memory, Text};

// Appends the line of a demand, if it has a weight.
fn push_demand(out: &mut Text, demand: usize, weight: u128) -> Result<(), Memory>
    ensures { OnOk result (out.new ≡ out.old ++ demand_line demand weight) }
{
    if weight == 0 {
        return Ok(());
    }
    push_number(out, demand)?;
    out.push(b" ")?;
    push_number(out, weight)?;
    out.push(b"\n")
}

// Appends a line for each demand with a weight.
fn push_demands(out: &mut Text, weights: &[u128]) -> Result<(), Memory>
    ensures { OnOk result (out.new ≡ out.old ++ demand_lines weights.now) }
{
    for (demand, weight) in weights.iter().enumerate() {
        push_demand(out, demand, *weight)?;
    }
    Ok(())
}

// Appends the line of the sum of the weights.
fn push_total(out: &mut Text, total: u128) -> Result<(), Memory>
    ensures { OnOk result (out.new ≡ out.old ++ total_line total) }
{
    out.push(b"total ")?;
    push_number(out, total)?;
    out.push(b"\n")
}

// Appends a line for each demand with a weight, from the lowest up, and one with the sum of the weights.
pub fn push_law(out: &mut Text, law: &Law) -> Result<(), Memory>
    ensures { OnOk result (out.new ≡ out.old ++ law_text law.now) }
{
    push_demands(out, law.weights())?;
    push_total(out, law.total())
}
