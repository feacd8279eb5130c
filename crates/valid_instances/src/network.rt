// The network kind.
ghost use Rattle.std.specs.Prelude.{◌↔◌, All, IsTrue};
ghost use Rattle.decision_model.specs.Pauses.{IsReadableSpan};
ghost use Rattle.decision_model.specs.Network.{IsReadableNetwork};
ghost use Rattle.valid_instances.specs.Rules.{KeepsNetworkRules};

use crate::nodes::are_readable_nodes;
use decision_model::limits::{MOST_NETWORK_PERIODS, MOST_NODES, MOST_PAUSES};
use decision_model::{Network, Span, is_seeded, misshapen_node, overlapping_span, overloaded_node};

// Whether a pause is at one of so many nodes, and ends within the periods, not before it begins.
fn is_readable_span(span: &Span, periods: u32, nodes: usize) -> bool
    ensures { IsTrue result ↔ IsReadableSpan periods nodes span.now }
{
    (span.node as usize) < nodes && 1 <= span.from && span.from <= span.to && span.to <= periods
}

fn are_readable_spans(spans: &[Span], periods: u32, nodes: usize) -> bool
    ensures { IsTrue result ↔ All (IsReadableSpan periods nodes) spans.now }
{
    spans
        .iter()
        .all(|span| is_readable_span(span, periods, nodes))
}

// Whether numbers are in range, and lists have their lengths.
pub(crate) fn is_readable_network(network: &Network) -> bool
    ensures { IsTrue result ↔ IsReadableNetwork network.now }
{
    let periods = network.periods;
    if periods < 1 || periods > MOST_NETWORK_PERIODS {
        return false;
    }
    let nodes = network.nodes.as_slice();
    if nodes.is_empty() || nodes.len() > MOST_NODES || !are_readable_nodes(nodes, periods) {
        return false;
    }
    let pauses = network.pauses.as_slice();
    pauses.len() <= MOST_PAUSES && are_readable_spans(pauses, periods, nodes.len())
}

// Whether draws have a seed, nodes have their shape and a load that is small enough, and no two pauses of a node and
// kind overlap.
pub(crate) fn keeps_network_rules(network: &Network) -> bool
    requires { IsReadableNetwork network.now }
    ensures { IsTrue result ↔ KeepsNetworkRules network.now }
{
    is_seeded(network)
        && misshapen_node(network).is_none()
        && overlapping_span(network.pauses.as_slice()).is_none()
        && overloaded_node(network).is_none()
}
