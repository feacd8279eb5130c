// The lines of networks.
ghost use Rattle.std.specs.Prelude.{◌≡◌, ◌++◌, OnOk, IfOk, codes, length};
ghost use Rattle.report_text.specs.Network.{field_text, flows_text, ends_text, node_line, period_lines, total_line};

use crate::pieces::push_number;
use decision_model::{Network, NodeSpec};
use fraction128::{Memory, Text};
use itoa::Integer;
use network_sim::{NodeLine, Row};
use std::alloc::Global;

// Appends a number behind its word.
fn push_field<N: Integer>(out: &mut Text, word: &str, number: N) -> Result<(), Memory>
    ensures { OnOk result (out.new ≡ out.old ++ (word.now ++ N.text number)) }
{
    out.push(word.as_bytes())?;
    push_number(out, number)
}

// Appends what a node saw, ordered and made.
fn push_flows(out: &mut Text, line: &NodeLine) -> Result<(), Memory>
    ensures { OnOk result (out.new ≡ out.old ++ flows_text line.now) }
{
    push_field(out, " seen ", line.seen)?;
    push_field(out, " order ", line.order)?;
    push_field(out, " made ", line.made)
}

// Appends what a node holds and owes, and what it costs, and ends the line.
fn push_ends(out: &mut Text, line: &NodeLine) -> Result<(), Memory>
    ensures { OnOk result (out.new ≡ out.old ++ ends_text line.now) }
{
    push_field(out, " stock ", line.stock)?;
    push_field(out, " owed ", line.owed)?;
    push_field(out, " due ", line.due)?;
    push_field(out, " cost ", line.cost)?;
    out.push(b"\n")
}

// Appends the line of a node in a period.
fn push_line(out: &mut Text, period: u32, node: &NodeSpec, line: &NodeLine) -> Result<(), Memory>
    ensures { OnOk result (out.new ≡ out.old ++ node_line period node.now.name line.now) }
{
    push_field(out, "period ", period)?;
    out.push(b" node ")?;
    out.push(node.name.bytes())?;
    push_flows(out, line)?;
    push_ends(out, line)
}

/// Appends the lines of a period, from 1, one a node in listed order: what it saw, ordered and made in the period, what
/// it holds and owes at its end, and what that costs.
pub fn push_period(out: &mut Text, net: &Network, period: u32, row: &Row) -> Result<(), Memory>
    requires { length row.now.lines.items ≡ length net.now.nodes }
    ensures { OnOk result (out.new ≡ out.old ++ period_lines period net.now.nodes row.now.lines.items) }
{
    let nodes = net.nodes.as_slice();
    for (place, line) in row.lines.iter().enumerate() {
        push_line(out, period, &nodes[place], line)?;
    }
    Ok(())
}

/// The lines of a period, from 1, as `push_period` appends them.
pub fn row_text(alloc: Global, net: &Network, period: u32, row: &Row) -> Result<Text, Memory>
    requires { length row.now.lines.items ≡ length net.now.nodes }
    ensures { IfOk result (λ text. text ≡ period_lines period net.now.nodes row.now.lines.items) }
{
    let mut text = Text::new(alloc);
    push_period(&mut text, net, period, row)?;
    Ok(text)
}

/// Appends the line of the sum of all costs.
pub fn push_total(out: &mut Text, total: u128) -> Result<(), Memory>
    ensures { OnOk result (out.new ≡ out.old ++ total_line total) }
{
    push_field(out, "total ", total)?;
    out.push(b"\n")
}
