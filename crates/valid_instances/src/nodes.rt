// Ranges of a node of a network.
ghost use Rattle.std.specs.Prelude.{◌≡◌, ◌↔◌, ◌≤◌, All, IsTrue};
ghost use Rattle.std.specs.List.{list_all};
ghost use Rattle.decision_model.specs.Nodes.{is_name_byte, is_node_name, IsReadableRule, IsReadableDemand, IsReadableLink, IsReadableNode};

use crate::laws::is_demand_law;
use crate::positions::is_position;
use decision_model::limits::{
    MOST_HOUSE_CAP, MOST_HOUSE_INDEX, MOST_INITIAL, MOST_LOT, MOST_NAME, MOST_NETWORK_LEAD,
    MOST_RATE, MOST_SOURCES, MOST_TRACE,
};
use decision_model::{Demand, Link, NodeSpec, Rule};

// Whether a byte is a letter, a digit, `_` or `-`.
fn is_name_byte(byte: u8) -> bool
    ensures { result ≡ is_name_byte byte }
{
    (b'a' <= byte && byte <= b'z')
        || (b'A' <= byte && byte <= b'Z')
        || (b'0' <= byte && byte <= b'9')
        || byte == b'_'
        || byte == b'-'
}

fn are_name_bytes(bytes: &[u8]) -> bool
    ensures { result ≡ list_all is_name_byte bytes.now }
{
    bytes.iter().all(|byte| is_name_byte(*byte))
}

fn is_node_name(name: &[u8]) -> bool
    ensures { result ≡ is_node_name name.now }
{
    1 <= name.len()
        && name.len() <= MOST_NAME
        && are_name_bytes(name)
        && name != b"outside".as_slice()
}

fn is_readable_rule(rule: &Rule) -> bool
    ensures { IsTrue result ↔ IsReadableRule rule.now }
{
    match rule {
        Rule::Base { level } | Rule::Echelon { level } => is_position(*level),
        Rule::MinMax { low, high } => is_position(*low) && is_position(*high) && *low < *high,
        Rule::Lot { reorder, lot } => is_position(*reorder) && 1 <= *lot && *lot <= MOST_LOT,
        Rule::House { index, cap } => *index <= MOST_HOUSE_INDEX && *cap <= MOST_HOUSE_CAP,
    }
}

// Whether there are so many units, none of them above the most that a period may ask for.
fn is_trace(units: &[u32], periods: u32) -> bool
    ensures { IsTrue result ↔ IsReadableDemand periods (Demand.Trace units.now) }
{
    units.len() == periods as usize && units.iter().all(|units| *units <= MOST_TRACE)
}

fn is_readable_demand(demand: &Demand, periods: u32) -> bool
    ensures { IsTrue result ↔ IsReadableDemand periods demand.now }
{
    match demand {
        Demand::Nobody => true,
        Demand::Trace(units) => is_trace(units.as_slice(), periods),
        Demand::Drawn(law) => is_demand_law(law),
    }
}

fn is_readable_link(link: &Link) -> bool
    ensures { IsTrue result ↔ IsReadableLink link.now }
{
    link.lead <= MOST_NETWORK_LEAD && link.order_lead <= MOST_NETWORK_LEAD
}

fn are_readable_links(links: &[Link]) -> bool
    ensures { IsTrue result ↔ All IsReadableLink links.now }
{
    links.iter().all(|link| is_readable_link(link))
}

fn is_readable_node(node: &NodeSpec, periods: u32) -> bool
    ensures { IsTrue result ↔ IsReadableNode periods node.now }
{
    if node.initial > MOST_INITIAL || node.holding > MOST_RATE || node.stockout > MOST_RATE {
        return false;
    }
    let sources = node.sources.as_slice();
    if sources.is_empty() || sources.len() > MOST_SOURCES || !are_readable_links(sources) {
        return false;
    }
    is_node_name(node.name.bytes())
        && is_readable_rule(&node.rule)
        && is_readable_demand(&node.demand, periods)
}

pub(crate) fn are_readable_nodes(nodes: &[NodeSpec], periods: u32) -> bool
    ensures { IsTrue result ↔ All (IsReadableNode periods) nodes.now }
{
    nodes.iter().all(|node| is_readable_node(node, periods))
}
