// The object of a network: its table of keys, its reading, its rules over several keys, and its writing.
ghost use Rattle.std.specs.Prelude.{◌≡◌, ◌≤◌, IfOk, IfSome, OnOk};
ghost use Rattle.serde_json.specs.View.{view, members_view};
ghost use Rattle.network_model.specs.Network.{IsReadableNetwork};
ghost use Rattle.network_model.specs.Limits.{most_word};
ghost use Rattle.json_forms.specs.Faults.{Gives};
ghost use Rattle.json_forms.specs.Keys.{has_keys};
ghost use Rattle.json_forms.specs.Members.{listed, put_all};
ghost use Rattle.network_json.specs.Network.{network_keys, network_of, network_broken, MeetsNetworkRules, network_to_periods, seed_members, network_data};

use crate::names::Names;
use crate::network_values::{node_values, span_values};
use crate::nodes::Node;
use crate::pauses::NodePause;
use json_forms::fault::{InstanceErr, InstanceFault, KeyList};
use json_forms::form::{given, missing, required};
use json_forms::items::{objects_or_none, read_items, required_objects};
use json_forms::keys::KeyRow::{Allowed, Needed};
use json_forms::keys::{KeyRow, has_keys};
use json_forms::law_texts::MOST_WORD;
use json_forms::numbers::Count;
use json_forms::write_values::{put_amounts, put_text};
use network_model::limits::{MOST_NETWORK_PERIODS, MOST_NODES, MOST_PAUSES};
use network_model::{Network, is_seeded, misshapen_node, overlapping_span, overloaded_node};
use serde_json::{Map, Value, put};
use std::alloc::{AllocError, Global};

const KEYS: [KeyRow; 5] = [
    Allowed("kind"),
    Needed("periods"),
    Allowed("seed"),
    Needed("nodes"),
    Allowed("pauses"),
];

const PERIODS: Count = Count {
    least: 1,
    most: MOST_NETWORK_PERIODS,
};

// Where draws begin.
const SEED: Count = Count {
    least: 0,
    most: MOST_WORD,
};

// All members of a network but where draws begin.
fn network_members(
    alloc: Global,
    kind: &str,
    network: &Network,
) -> Result<Map<String, Value>, AllocError>
    ensures { IfOk result (λ members. members_view members.entries ≡ listed (network_to_periods kind.now network.now)) }
{
    let nodes = node_values(alloc, network.nodes.as_slice())?;
    let pauses = span_values(alloc, network.nodes.as_slice(), network.pauses.as_slice())?;
    let mut members = Map::new(alloc);
    put_text(&mut members, alloc, "kind", kind)?;
    put(&mut members, alloc, "nodes", Value::Array(nodes))?;
    put(&mut members, alloc, "pauses", Value::Array(pauses))?;
    let amounts = [("periods", u64::from(network.periods))];
    put_amounts(&mut members, alloc, &amounts)?;
    Ok(members)
}

// Where draws begin, as a number of JSON.
fn seed_of(network: &Network) -> Option<u64>
    ensures value { result ≡ network.now.seed }
    ensures word { IfSome network.now.seed (λ seed. seed ≤ most_word) }
{
    match network.seed {
        Some(seed) => Some(u64::from(seed)),
        None => None,
    }
}

// Puts where draws begin, if that is said.
fn put_seed(
    members: &mut Map<String, Value>,
    alloc: Global,
    seed: Option<u64>,
) -> Result<(), AllocError>
    ensures { OnOk result (members_view members.new.entries
        ≡ put_all (seed_members seed) (members_view members.old.entries)) }
{
    match seed {
        Some(seed) => put(members, alloc, "seed", Value::from(seed)),
        None => Ok(()),
    }
}

/// The object has a network's required keys and no other ones.
pub fn has_network_keys(alloc: Global, object: &Value) -> Result<(), InstanceErr>
    ensures { Gives result (has_keys network_keys (view object.now)) }
{
    has_keys(alloc, object, &KEYS)
}

/// The network that an object says, its rules over several keys aside, or the first fault of a value, in the order of the
/// keys. The nodes and the pauses pass the tests of their own keys one by one, where the key of their list is reached.
#[tactic(auto, using(json_forms::proofs::Chained::steps), unfolding(crate::specs::Network::network_of))]
pub fn read_network(alloc: Global, object: &Value) -> Result<Network, InstanceErr>
    ensures value { Gives result (network_of (view object.now)) }
    ensures readable { IfOk result IsReadableNetwork }
{
    let periods = required(alloc, object, "periods", PERIODS)?;
    let seed = given(alloc, object, "seed", SEED)?;
    let node_items = required_objects(alloc, object, "nodes", 1, MOST_NODES)?;
    let names = Names::of(alloc, node_items)?;
    let names = &names;
    let node = Node { periods, names };
    let nodes = read_items(alloc, &node, KeyList::Nodes, node_items)?;
    let pause_items = objects_or_none(alloc, object, "pauses", MOST_PAUSES)?;
    let pause = NodePause { periods, names };
    let pauses = read_items(alloc, &pause, KeyList::Pauses, pause_items)?;
    Ok(Network {
        periods,
        seed,
        nodes,
        pauses,
    })
}

/// The first rule over several keys that a network breaks: a seed where demand is drawn, the shape, pauses that don't
/// overlap, totals that fit.
#[tactic(auto, unfolding(crate::specs::Network::network_broken))]
pub fn check_network(alloc: Global, network: &Network) -> Result<(), InstanceErr>
    requires { IsReadableNetwork network.now }
    ensures value { Gives result (network_broken network.now) }
    ensures meaning { OnOk result (MeetsNetworkRules network.now) }
{
    if !is_seeded(network) {
        return Err(missing(alloc, "seed"));
    }
    if let Some(place) = misshapen_node(network) {
        return Err(InstanceErr::Bad(InstanceFault::NetworkShape(place)));
    }
    if let Some(place) = overlapping_span(network.pauses.as_slice()) {
        return Err(InstanceErr::Bad(InstanceFault::Overlap(place)));
    }
    if let Some(place) = overloaded_node(network) {
        return Err(InstanceErr::Bad(InstanceFault::Load(place)));
    }
    Ok(())
}

/// The JSON value of a network, with the word of its kind.
#[tactic(auto, unfolding(crate::specs::Network::network_data))]
pub fn network_value(alloc: Global, kind: &str, network: &Network) -> Result<Value, AllocError>
    ensures value { IfOk result (λ value. view value ≡ network_data kind.now network.now) }
    ensures typed { IfSome network.now.seed (λ seed. seed ≤ most_word) }
{
    let seed = seed_of(network);
    let mut members = network_members(alloc, kind, network)?;
    put_seed(&mut members, alloc, seed)?;
    Ok(Value::Object(members))
}
