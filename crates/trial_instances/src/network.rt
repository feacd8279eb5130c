// The network of a trial.
ghost use Rattle.std.specs.Prelude.{◌≡◌, ◌≤◌, None, IfOk};
ghost use Rattle.trial_instances.specs.Network.{shop, depot, plant, shops_network, trial_network};

use crate::laws::digits;
use crate::numbers::{number, push};
use decision_model::{Demand, Instance, Items, Link, Network, NodeSpec, Rule};
use fraction128::{Memory, Text};
use std::alloc::Global;

fn name_of(alloc: Global, letters: &[u8]) -> Result<Text, Memory>
    ensures { IfOk result (λ name. name ≡ letters.now) }
{
    let mut name = Text::new(alloc);
    name.push(letters)?;
    Ok(name)
}

fn links_of(alloc: Global, links: &[Link]) -> Result<Items<Link>, Memory>
    ensures { IfOk result (λ items. items ≡ links.now) }
{
    Ok(Items::new(links.to_vec(alloc)?))
}

// A node with customers, which orders from the depot up to a level.
fn shop(alloc: Global, letters: &[u8], level: u64) -> Result<NodeSpec, Memory>
    requires { level ≤ 40 }
    ensures { IfOk result (λ node. node ≡ shop letters.now level) }
{
    let name = name_of(alloc, letters)?;
    let from_depot = Link {
        from: Some(3),
        lead: 1,
        order_lead: 0,
    };
    let sources = links_of(alloc, &[from_depot])?;
    let law = digits(alloc)?;
    Ok(NodeSpec {
        name,
        initial: 20,
        holding: 1,
        stockout: 10,
        rule: Rule::Base {
            level: level as i64,
        },
        sources,
        demand: Demand::Drawn(law),
    })
}

fn depot(alloc: Global) -> Result<NodeSpec, Memory>
    ensures { IfOk result (λ node. node ≡ depot) }
{
    let name = name_of(alloc, b"depot")?;
    let from_plant = Link {
        from: Some(4),
        lead: 2,
        order_lead: 1,
    };
    let sources = links_of(alloc, &[from_plant])?;
    Ok(NodeSpec {
        name,
        initial: 60,
        holding: 1,
        stockout: 0,
        rule: Rule::MinMax { low: 40, high: 90 },
        sources,
        demand: Demand::Nobody,
    })
}

// Units from outside take so many periods.
fn from_outside(lead: u32) -> Link
    ensures { result ≡ record { from = None; lead = lead; order_lead = 0 } }
{
    Link {
        from: None,
        lead,
        order_lead: 0,
    }
}

fn plant(alloc: Global) -> Result<NodeSpec, Memory>
    ensures { IfOk result (λ node. node ≡ plant) }
{
    let name = name_of(alloc, b"plant")?;
    let sources = links_of(alloc, &[from_outside(3), from_outside(2)])?;
    Ok(NodeSpec {
        name,
        initial: 50,
        holding: 1,
        stockout: 0,
        rule: Rule::Lot {
            reorder: 30,
            lot: 50,
        },
        sources,
        demand: Demand::Nobody,
    })
}

// The shops at their levels, their depot and its plant.
fn shops_network(alloc: Global, seed: u32, a: u64, b: u64, c: u64) -> Result<Network, Memory>
    requires a { a ≤ 40 }
    requires b { b ≤ 40 }
    requires c { c ≤ 40 }
    ensures { IfOk result (λ network. network ≡ shops_network seed a b c) }
{
    let mut nodes = Vec::new(alloc);
    push(&mut nodes, shop(alloc, b"a", a)?)?;
    push(&mut nodes, shop(alloc, b"b", b)?)?;
    push(&mut nodes, shop(alloc, b"c", c)?)?;
    push(&mut nodes, depot(alloc)?)?;
    push(&mut nodes, plant(alloc)?)?;
    Ok(Network {
        periods: 1_000,
        seed: Some(seed),
        nodes: Items::new(nodes),
        pauses: Items::new(Vec::new(alloc)),
    })
}

/// The network of a trial's number: 1,000 periods of three shops, their depot and its plant.
#[tactic(auto, using(crate::specs::NumberFacts::number_most), unfolding(crate::specs::Network::trial_network))]
pub fn trial_network(alloc: Global, trial: u32) -> Result<Instance, Memory>
    ensures { IfOk result (λ made. made ≡ Instance.Network (trial_network trial)) }
{
    let a = number(trial, 430, 20, 40);
    let b = number(trial, 431, 20, 40);
    let c = number(trial, 432, 20, 40);
    let network = shops_network(alloc, trial, a, b, c)?;
    Ok(Instance::Network(network))
}
