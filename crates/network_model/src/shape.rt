// The shape of a network: names that differ, sources that are listed later, and one path to each node of an echelon.
ghost use Rattle.std.specs.Prelude.{◌≡◌, ℕ, ◌<◌, ◌≤◌, length, min, slice_index, not, ◌==◌, nat_le};
ghost use Rattle.std.specs.List.{list_all, list_any};
ghost use Rattle.std.specs.Str.{bytes_eq};
ghost use Rattle.network_model.specs.Nodes.{node_at, is_from, each_below};
ghost use Rattle.network_model.specs.Shape.{is_new_name, is_later, is_none_from, are_distinct, paths_through, paths_over, has_single_paths, is_shaped_at, misshapen_node};
ghost use Rattle.network_model.specs.Paths.{AreLaterBelow, CountsPaths};
ghost use Rattle.network_model.specs.Network.{IsReadableNetwork};

use crate::limits::MOST_NODES;
use crate::network::{Link, Network, NodeSpec};

/// The first node, from 1, that has the name of an earlier node, or a source that is neither outside nor a node listed
/// later, or a node twice among its sources, or the rule of an echelon and two paths to a node below it.
pub fn misshapen_node(network: &Network) -> Option<u32>
    requires { IsReadableNetwork network.now }
    ensures { result ≡ misshapen_node network.now }
{
    let nodes = network.nodes.as_slice();
    for place in 0..nodes.len() {
        if !is_shaped_at(nodes, place) {
            return Some(place as u32 + 1);
        }
    }
    None
}

// Whether a node has its shape, where the sources of all earlier ones are listed later.
fn is_shaped_at(nodes: &[NodeSpec], place: usize) -> bool
    requires within { place < length nodes.now }
    requires few { length nodes.now ≤ 64 }
    requires earlier { AreLaterBelow nodes.now place }
    ensures { result ≡ is_shaped_at nodes.now place }
{
    let sources = nodes[place].sources.as_slice();
    is_new_name(nodes, place)
        && are_later(nodes.len(), place, sources)
        && are_distinct(sources)
        && has_single_paths(nodes, place)
}

// Whether no node before this one has its name.
fn is_new_name(nodes: &[NodeSpec], place: usize) -> bool
    requires within { place < length nodes.now }
    ensures { result ≡ is_new_name nodes.now place }
{
    !is_named(&nodes[..place], nodes[place].name.bytes())
}

fn is_named(nodes: &[NodeSpec], name: &[u8]) -> bool
    ensures { result ≡ list_any (λ node. bytes_eq node.name name.now) nodes.now }
{
    for node in nodes {
        if node.name.bytes() == name {
            return true;
        }
    }
    false
}

// Whether each source is outside, or one of so many nodes that is listed after this one.
fn are_later(count: usize, place: usize, sources: &[Link]) -> bool
    ensures { result ≡ list_all (λ link. is_later count place link.from) sources.now }
{
    for source in sources {
        if !is_later(count, place, source.from) {
            return false;
        }
    }
    true
}

fn is_later(count: usize, place: usize, from: Option<u32>) -> bool
    ensures { result ≡ is_later count place from }
{
    match from {
        None => true,
        Some(node) => place < node as usize && (node as usize) < count,
    }
}

// Whether no node stands twice among the sources.
fn are_distinct(sources: &[Link]) -> bool
    ensures { result ≡ are_distinct sources.now }
{
    for place in 0..sources.len() {
        if !is_none_from(sources[place].from, &sources[place + 1..]) {
            return false;
        }
    }
    true
}

fn is_none_from(from: Option<u32>, sources: &[Link]) -> bool
    ensures { result ≡ is_none_from from sources.now }
{
    match from {
        None => true,
        Some(node) => !is_source(node, sources),
    }
}

fn is_source(node: u32, sources: &[Link]) -> bool
    ensures { result ≡ list_any (λ link. is_from node link.from) sources.now }
{
    for source in sources {
        if source.from == Some(node) {
            return true;
        }
    }
    false
}

// Whether the rule of this node, if it is that of an echelon, counts each node below it once.
fn has_single_paths(nodes: &[NodeSpec], place: usize) -> bool
    requires within { place < length nodes.now }
    requires few { length nodes.now ≤ 64 }
    requires earlier { AreLaterBelow nodes.now place }
    ensures { result ≡ has_single_paths nodes.now place }
{
    !nodes[place].rule.is_echelon() || are_single(&count_paths(nodes, place)[..place])
}

fn are_single(counts: &[u8]) -> bool
    ensures { result ≡ each_below (λ node. nat_le (slice_index counts.now node) 1) (length counts.now) }
{
    for place in 0..counts.len() {
        if counts[place] > 1 {
            return false;
        }
    }
    true
}

/// How many paths lead from each node up to this one, over sources, but 2 where there are more. They are counted down
/// from this node, since sources are listed later.
pub fn count_paths(nodes: &[NodeSpec], place: usize) -> [u8; MOST_NODES]
    requires within { place < length nodes.now }
    requires few { length nodes.now ≤ 64 }
    requires earlier { AreLaterBelow nodes.now place }
    ensures length { length result ≡ 64 }
    ensures exact { CountsPaths nodes.now place result 0 }
{
    let mut counts = [0; MOST_NODES];
    counts[place] = 1;
    for node in (0..place).rev() {
        counts[node] = paths_over(&counts, place, nodes[node].sources.as_slice());
    }
    counts
}

// The paths over some sources up to a node, but 2 where there are more.
fn paths_over(counts: &[u8], place: usize, sources: &[Link]) -> u8
    requires within { place < length counts.now }
    ensures { result ≡ min 2 (paths_over (slice_index counts.now) place sources.now) }
{
    let mut total = 0u8;
    for source in sources {
        total = (total + paths_through(counts, place, source.from).min(2)).min(2);
    }
    total
}

fn paths_through(counts: &[u8], place: usize, from: Option<u32>) -> u8
    requires within { place < length counts.now }
    ensures { result ≡ paths_through (slice_index counts.now) place from }
{
    match from {
        Some(node) if node as usize <= place => counts[node as usize],
        _ => 0,
    }
}
