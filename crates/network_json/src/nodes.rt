// The nodes of a network.
ghost use Rattle.std.specs.Prelude.{◌≡◌, ◌≤◌, All, Ok, Err, map, length, codes, IfOk};
ghost use Rattle.serde_json.specs.View.{view};
ghost use Rattle.serde_json.specs.Find.{get};
ghost use Rattle.network_model.specs.Limits.{most_trace};
ghost use Rattle.network_model.specs.Nodes.{IsReadableDemand, IsReadableNode};
ghost use Rattle.json_forms.specs.Steps.{each};
ghost use Rattle.json_forms.specs.Faults.{Gives, GivesField};
ghost use Rattle.json_forms.specs.Numbers.{amount_in, some_amounts_in};
ghost use Rattle.json_forms.specs.NodeNames.{Name};
ghost use Rattle.json_forms.specs.Items.{item_of};
ghost use Rattle.network_json.specs.Nodes.{is_trace, trace_under, demand_in, node_keys, node_of};

use crate::names::Names;
use crate::order_rules::OrderRule;
use crate::sources::Sources;
use json_forms::fault::{FieldErr, FieldFault, InstanceErr};
use json_forms::form::{Form, optional, required};
use json_forms::items::ItemForm;
use json_forms::keys::KeyRow::{Allowed, Needed};
use json_forms::keys::{KeyRow, has_keys};
use json_forms::law_texts::count_keys;
use json_forms::laws::law;
use json_forms::node_names::NodeName;
use json_forms::numbers::{Amount, RATE, count_of, whole_items};
use network_model::limits::{MOST_INITIAL, MOST_TRACE};
use network_model::{Demand, Items, NodeSpec};
use serde_json::Value;
use std::alloc::Global;

const KEYS: [KeyRow; 7] = [
    Needed("name"),
    Needed("initial"),
    Needed("holding"),
    Allowed("stockout"),
    Needed("rule"),
    Needed("sources"),
    Allowed("demand"),
];

const INITIAL: Amount = Amount {
    least: 0,
    most: MOST_INITIAL,
};

fn listed_demands(alloc: Global, list: &[Value]) -> Result<Items<u32>, FieldErr>
    ensures value { GivesField result (each (amount_in 0 most_trace) (map view list.now)) }
    ensures range { IfOk result (All (λ demand. demand ≤ most_trace)) }
{
    let mut demands = Vec::new(alloc);
    for value in list {
        let demand = count_of(value, 0, MOST_TRACE)?;
        demands.push(demand)?;
    }
    Ok(Items::new(demands))
}

// One demand a period.
fn demands(alloc: Global, value: &Value, periods: usize) -> Result<Items<u32>, FieldErr>
    ensures value { GivesField result (some_amounts_in most_trace periods periods (view value.now)) }
    ensures range { IfOk result (All (λ demand. demand ≤ most_trace)) }
    ensures count { IfOk result (λ demands. length demands ≡ periods) }
{
    let list = whole_items(value)?;
    let demands = listed_demands(alloc, list)?;
    if demands.as_slice().len() != periods {
        return Err(FieldErr::Bad(FieldFault::LengthMismatch));
    }
    Ok(demands)
}

// Whether the only key is that of a listed demand.
fn is_trace(value: &Value) -> bool
    ensures { result ≡ is_trace (view value.now) }
{
    value.get("trace").is_some() && count_keys(value) == 1
}

// The demand that is listed.
fn trace(alloc: Global, value: &Value, periods: usize) -> Result<Demand, FieldErr>
    ensures value { GivesField result (trace_under periods (get (codes "trace") (view value.now))) }
    ensures range { IfOk result (IsReadableDemand periods) }
{
    let Some(list) = value.get("trace") else {
        return Err(FieldErr::Bad(FieldFault::WrongType));
    };
    let demands = demands(alloc, list, periods)?;
    Ok(Demand::Trace(demands))
}

// One demand a period, or a law.
fn demand(alloc: Global, value: &Value, periods: usize) -> Result<Demand, FieldErr>
    ensures value { GivesField result (demand_in periods (view value.now)) }
    ensures range { IfOk result (IsReadableDemand periods) }
{
    if is_trace(value) {
        return trace(alloc, value, periods);
    }
    let law = law(alloc, value)?;
    Ok(Demand::Drawn(law))
}

/// What a node's customers ask for.
#[derive(Clone, Copy)]
pub struct NodeDemand {
    pub periods: usize,
}

impl Form for NodeDemand {
    ghost use Rattle.std.specs.Prelude.{⊤};

    type Out = Demand;

    ghost reading = { λ form. demand_in form.periods };

    ghost ready = { λ _. ⊤ };

    ghost holds = { λ form. IsReadableDemand form.periods };

    fn read(&self, alloc: Global, value: &Value) -> Result<Demand, FieldErr> {
        demand(alloc, value, self.periods)
    }
}

// The values of the keys, in the order of the table.
#[tactic(auto, using(json_forms::proofs::Chained::steps), unfolding(crate::specs::Nodes::node_of))]
fn node_values(
    alloc: Global,
    periods: u32,
    names: &Names<'_>,
    object: &Value,
) -> Result<NodeSpec, InstanceErr>
    ensures value { Gives result (node_of periods names.now (view object.now)) }
    ensures range { IfOk result (IsReadableNode periods) }
{
    let name = required(alloc, object, "name", NodeName)?;
    let initial = required(alloc, object, "initial", INITIAL)?;
    let holding = required(alloc, object, "holding", RATE)?;
    let stockout = optional(alloc, object, "stockout", RATE, 0)?;
    let rule = required(alloc, object, "rule", OrderRule)?;
    let sources = required(alloc, object, "sources", Sources { names })?;
    let periods = periods as usize;
    let demand = optional(
        alloc,
        object,
        "demand",
        NodeDemand { periods },
        Demand::Nobody,
    )?;
    Ok(NodeSpec {
        name,
        initial,
        holding,
        stockout,
        rule,
        sources,
        demand,
    })
}

/// A node, whose sources are among the nodes of these names.
#[derive(Clone, Copy)]
pub struct Node<'n, 'a> {
    pub periods: u32,
    pub names: &'n Names<'a>,
}

impl ItemForm for Node<'_, '_> {
    ghost use Rattle.std.specs.Prelude.{⊤};

    type Out = NodeSpec;

    ghost reading = { λ form. item_of node_keys (node_of form.periods form.names.now) };

    ghost ready = { λ _. ⊤ };

    ghost holds = { λ form. IsReadableNode form.periods };

    #[tactic(auto, using(json_forms::proofs::Chained::steps))]
    fn read(&self, alloc: Global, object: &Value) -> Result<NodeSpec, InstanceErr> {
        has_keys(alloc, object, &KEYS)?;
        node_values(alloc, self.periods, self.names, object)
    }
}
