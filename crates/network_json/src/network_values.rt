// JSON values for the parts of a network.
ghost use Rattle.std.specs.Prelude.{◌≡◌, [], map, IfOk, OnOk};
ghost use Rattle.serde_json.specs.Data.{string, put as with_member};
ghost use Rattle.serde_json.specs.View.{view, members_view};
ghost use Rattle.network_model.specs.Nodes.{node_at};
ghost use Rattle.json_forms.specs.Members.{listed, put_all};
ghost use Rattle.json_forms.specs.WrittenValues.{list_data, amounts_data};
ghost use Rattle.json_forms.specs.NodeNames.{name_text, name_data};
ghost use Rattle.network_json.specs.Network.{name_at, rule_members, rule_data, link_data, trace_data, with_demand, node_members, node_data, pause_word, span_data};

use json_forms::node_names::name_text;
use json_forms::write_values::{law_value, put_amounts, put_text};
use network_model::{Demand, Link, NodeSpec, Pause, Rule, Span};
use serde_json::{Map, Value, put};
use std::alloc::{AllocError, Global};

// The name of the node at a place.
fn node_name(nodes: &[NodeSpec], place: u32) -> &str
    ensures { result.now ≡ name_text (node_at nodes.now place).name }
{
    match nodes.get(place as usize) {
        Some(node) => name_text(node.name.bytes()),
        None => "",
    }
}

// The name of the node at a place, or of the outside.
fn name_at(nodes: &[NodeSpec], place: Option<u32>) -> &str
    ensures { result.now ≡ name_text (name_at nodes.now place) }
{
    match place {
        Some(place) => node_name(nodes, place),
        None => "outside",
    }
}

fn rule_members(alloc: Global, rule: &Rule) -> Result<Map<String, Value>, AllocError>
    ensures { IfOk result (λ members. members_view members.entries ≡ listed (rule_members rule.now)) }
{
    let mut members = Map::new(alloc);
    match rule {
        Rule::Base { level } => put(&mut members, alloc, "base", Value::from(*level))?,
        Rule::MinMax { low, high } => {
            put(&mut members, alloc, "min", Value::from(*low))?;
            put(&mut members, alloc, "max", Value::from(*high))?;
        }
        Rule::Lot { reorder, lot } => {
            put(&mut members, alloc, "reorder", Value::from(*reorder))?;
            put(&mut members, alloc, "lot", Value::from(*lot))?;
        }
        Rule::Echelon { level } => put(&mut members, alloc, "echelon", Value::from(*level))?,
        Rule::House { index, cap } => {
            put(&mut members, alloc, "house", Value::from(u64::from(*index)))?;
            put(&mut members, alloc, "cap", Value::from(*cap))?;
        }
    }
    Ok(members)
}

#[tactic(auto, unfolding(crate::specs::Network::rule_data))]
fn rule_value(alloc: Global, rule: &Rule) -> Result<Value, AllocError>
    ensures { IfOk result (λ v. view v ≡ rule_data rule.now) }
{
    let members = rule_members(alloc, rule)?;
    Ok(Value::Object(members))
}

#[tactic(auto, unfolding(crate::specs::Network::link_data))]
fn link_value(alloc: Global, nodes: &[NodeSpec], link: &Link) -> Result<Value, AllocError>
    ensures { IfOk result (λ v. view v ≡ link_data nodes.now link.now) }
{
    let mut members = Map::new(alloc);
    put_text(&mut members, alloc, "from", name_at(nodes, link.from))?;
    let leads = [
        ("lead", u64::from(link.lead)),
        ("order_lead", u64::from(link.order_lead)),
    ];
    put_amounts(&mut members, alloc, &leads)?;
    Ok(Value::Object(members))
}

fn link_values(alloc: Global, nodes: &[NodeSpec], links: &[Link]) -> Result<Vec<Value>, AllocError>
    ensures { IfOk result (λ vs. map view vs.items ≡ map (link_data nodes.now) links.now) }
{
    let mut values = Vec::new(alloc);
    for link in links {
        let value = link_value(alloc, nodes, link)?;
        values.push(value)?;
    }
    Ok(values)
}

fn demands_value(alloc: Global, demands: &[u32]) -> Result<Value, AllocError>
    ensures { IfOk result (λ v. view v ≡ amounts_data demands.now) }
{
    let mut values = Vec::new(alloc);
    for demand in demands {
        values.push(Value::from(u64::from(*demand)))?;
    }
    Ok(Value::Array(values))
}

#[tactic(auto, unfolding(crate::specs::Network::trace_data))]
fn trace_value(alloc: Global, demands: &[u32]) -> Result<Value, AllocError>
    ensures { IfOk result (λ v. view v ≡ trace_data demands.now) }
{
    let demands = demands_value(alloc, demands)?;
    let mut members = Map::new(alloc);
    put(&mut members, alloc, "trace", demands)?;
    Ok(Value::Object(members))
}

// Puts a demand, if there is one.
fn put_demand(
    members: &mut Map<String, Value>,
    alloc: Global,
    demand: &Demand,
) -> Result<(), AllocError>
    ensures { OnOk result (members_view members.new.entries
        ≡ put_all (with_demand demand.now []) (members_view members.old.entries)) }
{
    match demand {
        Demand::Nobody => Ok(()),
        Demand::Trace(demands) => {
            let value = trace_value(alloc, demands.as_slice())?;
            put(members, alloc, "demand", value)
        }
        Demand::Drawn(law) => {
            let value = law_value(alloc, law)?;
            put(members, alloc, "demand", value)
        }
    }
}

// All members of a node but its demand.
fn node_members(
    alloc: Global,
    nodes: &[NodeSpec],
    node: &NodeSpec,
) -> Result<Map<String, Value>, AllocError>
    ensures { IfOk result (λ members. members_view members.entries ≡ listed (node_members nodes.now node.now)) }
{
    let rule = rule_value(alloc, &node.rule)?;
    let sources = link_values(alloc, nodes, node.sources.as_slice())?;
    let mut members = Map::new(alloc);
    put_text(&mut members, alloc, "name", name_text(node.name.bytes()))?;
    put(&mut members, alloc, "rule", rule)?;
    put(&mut members, alloc, "sources", Value::Array(sources))?;
    let amounts = [
        ("initial", node.initial),
        ("holding", node.holding),
        ("stockout", node.stockout),
    ];
    put_amounts(&mut members, alloc, &amounts)?;
    Ok(members)
}

#[tactic(auto, unfolding(crate::specs::Network::node_data))]
fn node_value(alloc: Global, nodes: &[NodeSpec], node: &NodeSpec) -> Result<Value, AllocError>
    ensures { IfOk result (λ v. view v ≡ node_data nodes.now node.now) }
{
    let mut members = node_members(alloc, nodes, node)?;
    put_demand(&mut members, alloc, &node.demand)?;
    Ok(Value::Object(members))
}

/// The nodes of a network.
pub fn node_values(alloc: Global, nodes: &[NodeSpec]) -> Result<Vec<Value>, AllocError>
    ensures { IfOk result (λ vs. map view vs.items ≡ map (node_data nodes.now) nodes.now) }
{
    let mut values = Vec::new(alloc);
    for node in nodes {
        let value = node_value(alloc, nodes, node)?;
        values.push(value)?;
    }
    Ok(values)
}

fn pause_word(what: Pause) -> &'static str
    ensures { result.now ≡ pause_word what }
{
    match what {
        Pause::Orders => "orders",
        Pause::Shipments => "shipments",
        Pause::Receipts => "receipts",
    }
}

#[tactic(auto, unfolding(crate::specs::Network::span_data))]
fn span_value(alloc: Global, nodes: &[NodeSpec], span: &Span) -> Result<Value, AllocError>
    ensures { IfOk result (λ v. view v ≡ span_data nodes.now span.now) }
{
    let mut members = Map::new(alloc);
    put_text(&mut members, alloc, "node", node_name(nodes, span.node))?;
    put_text(&mut members, alloc, "what", pause_word(span.what))?;
    let ends = [("from", u64::from(span.from)), ("to", u64::from(span.to))];
    put_amounts(&mut members, alloc, &ends)?;
    Ok(Value::Object(members))
}

/// The pauses of a network.
pub fn span_values(
    alloc: Global,
    nodes: &[NodeSpec],
    spans: &[Span],
) -> Result<Vec<Value>, AllocError>
    ensures { IfOk result (λ vs. map view vs.items ≡ map (span_data nodes.now) spans.now) }
{
    let mut values = Vec::new(alloc);
    for span in spans {
        let value = span_value(alloc, nodes, span)?;
        values.push(value)?;
    }
    Ok(values)
}
