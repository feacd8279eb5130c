// Networks: nodes that order from each other and from outside, period by period.
ghost use Rattle.std.specs.Prelude.{◌≡◌, IfOk, not};
ghost use Rattle.std.specs.List.{list_all};
ghost use Rattle.network_model.specs.Nodes.{IsReadableRule, is_echelon, peak_of, greatest, top_of};
ghost use Rattle.network_model.specs.Network.{is_drawn, is_seeded};

use demand_law::Law;
use fraction128::{Memory, Text};
use model_terms::{Items, above_zero};
use std::alloc::Global;

/// A network that is simulated.
#[derive(Drop)]
pub struct Network {
    pub periods: u32,
    /// Where the draws of demand begin.
    pub seed: Option<u32>,
    /// The nodes, those that face demand first: a node orders from nodes listed after it.
    pub nodes: Items<NodeSpec>,
    pub pauses: Items<Span>,
}

/// A node: where stock is held, and finished units are made of one unit from each source.
#[derive(Drop)]
pub struct NodeSpec {
    /// Letters, digits, `_` and `-`.
    pub name: Text,
    /// The stock before the first period.
    pub initial: u64,
    /// The cost of each unit in stock at the end of a period.
    pub holding: u64,
    /// The cost of each unit that customers are owed at the end of a period.
    pub stockout: u64,
    pub rule: Rule,
    pub sources: Items<Link>,
    pub demand: Demand,
}

/// How much a node orders, by its position.
#[derive(Clone, Copy, Debug, PartialEq, Eq)]
pub enum Rule {
    /// Up to a level.
    Base { level: i64 },
    /// Up to the high level, at a position of at most the low one.
    MinMax { low: i64, high: i64 },
    /// As many lots as bring the position above the reorder point.
    Lot { reorder: i64, lot: u64 },
    /// Up to a level of the stock of the node and of all nodes below it.
    Echelon { level: i64 },
    /// What a rule of the caller's own answers, up to a cap.
    House { index: u32, cap: u64 },
}

/// A source of a node.
#[derive(Clone, Copy, Debug, PartialEq, Eq)]
pub struct Link {
    /// The supplier's place in the list of nodes, from 0, or none for outside.
    pub from: Option<u32>,
    /// How many periods units are under way.
    pub lead: u32,
    /// How many periods an order is under way.
    pub order_lead: u32,
}

/// What a node's customers ask for.
#[derive(Drop)]
pub enum Demand {
    /// It has none.
    Nobody,
    /// So many units, period by period.
    Trace(Items<u32>),
    /// Drawn from a law in each period.
    Drawn(Law),
}

/// Periods in which something pauses at a node.
#[derive(Clone, Copy, Debug, PartialEq, Eq)]
pub struct Span {
    /// The node's place in the list of nodes, from 0.
    pub node: u32,
    pub what: Pause,
    /// The first period and the last one.
    pub from: u32,
    pub to: u32,
}

/// What pauses.
#[derive(Clone, Copy, Debug, PartialEq, Eq)]
pub enum Pause {
    /// The node orders nothing.
    Orders,
    /// The node serves nobody.
    Shipments,
    /// The node takes nothing in; what arrives waits.
    Receipts,
}

impl Rule {
    /// Whether the rule counts the stock of the nodes below its own.
    pub fn is_echelon(&self) -> bool
        ensures { result ≡ is_echelon self.now }
    {
        matches!(self, Rule::Echelon { .. })
    }

    /// No order takes the position above this; 0 for a rule of the caller's own.
    pub fn peak(&self) -> u64
        requires { IsReadableRule self.now }
        ensures { result ≡ peak_of self.now }
    {
        match self {
            Rule::Base { level } | Rule::Echelon { level } => above_zero(*level),
            Rule::MinMax { low: _, high } => above_zero(*high),
            Rule::Lot { reorder, lot } => above_zero(*reorder + *lot as i64),
            Rule::House { index: _, cap: _ } => 0,
        }
    }
}

impl Demand {
    /// The greatest demand of a period.
    pub fn top(&self) -> u32
        ensures { result ≡ top_of self.now }
    {
        match self {
            Demand::Nobody => 0,
            Demand::Trace(units) => greatest(units.as_slice()),
            Demand::Drawn(law) => law.greatest(),
        }
    }

    /// Whether it is drawn from a law.
    pub fn is_drawn(&self) -> bool
        ensures { result ≡ is_drawn self.now }
    {
        matches!(self, Demand::Drawn(_))
    }

    /// The same demand once more.
    pub fn copy(&self, alloc: Global) -> Result<Demand, Memory>
        ensures { IfOk result (λ demand. demand ≡ self.now) }
    {
        match self {
            Demand::Nobody => Ok(Demand::Nobody),
            Demand::Trace(units) => Ok(Demand::Trace(units.copy(alloc)?)),
            Demand::Drawn(law) => Ok(Demand::Drawn(law.copy(alloc)?)),
        }
    }
}

// The greatest of some demands, 0 where there are none.
fn greatest(demands: &[u32]) -> u32
    ensures { result ≡ greatest demands.now }
{
    let mut greatest = 0;
    for demand in demands {
        greatest = greatest.max(*demand);
    }
    greatest
}

/// Whether no demand is drawn, or there is a seed to draw it by.
pub fn is_seeded(network: &Network) -> bool
    ensures { result ≡ is_seeded network.now }
{
    for node in network.nodes.as_slice() {
        if node.demand.is_drawn() {
            return network.seed.is_some();
        }
    }
    true
}
