// Order rules: how many units a node orders at a position.
ghost use Rattle.std.specs.Prelude.{◌≡◌, ℕ, ◌+◌, ◌*◌, ◌/◌, ◌^◌, ◌<◌, ◌≤◌, ℤ, pos, ◌+ℤ◌, ◌≤ℤ◌, ◌<ℤ◌, Bool, true, false};
ghost use Rattle.std.specs.Int.RustNames.{unsigned_abs};
ghost use Rattle.model_terms.specs.Positions.{above_zero};
ghost use Rattle.node_state.specs.Orders.{base_order};

use network_model::{Rule, above_zero};
use std::marker::Model;

/// Which stock a rule looks at.
pub trait View {
    ghost ECHELON: { Bool };

    /// Whether it is that of the node and of all nodes below it.
    const ECHELON: bool;
}

/// The stock of the node alone.
pub struct Local;

/// The stock of the node and of all nodes below it.
pub struct Whole;

impl View for Local {
    ghost ECHELON = { false };

    const ECHELON: bool = false;
}

impl View for Whole {
    ghost ECHELON = { true };

    const ECHELON: bool = true;
}

/// A rule that gives each position its order.
pub trait OrderRule {
    type Seen: View;

    /// The order at a position.
    ghost ordered: { Self → ℤ → ℕ };

    /// No order takes the position above this.
    ghost highest: { Self → ℕ };

    /// The units that are ordered at a position.
    fn order(&self, position: i64) -> u64
        requires { unsigned_abs position ≤ 10 ^ 13 }
        ensures { result ≡ ordered self.now position };

    /// The position that no order passes.
    fn peak(&self) -> u64
        ensures { result ≡ highest self.now };

    ghost within_peak: { (r : Self) (p : ℤ) → 0 < ordered r p → (p +ℤ pos (ordered r p)) ≤ℤ pos (highest r) };
}

// What the position lacks to the level.
fn shortfall(level: i64, position: i64) -> u64
    requires level { unsigned_abs level ≤ 10 ^ 6 }
    requires position { unsigned_abs position ≤ 10 ^ 13 }
    ensures value { result ≡ base_order level position }
    ensures small { result ≤ 2 * 10 ^ 13 }
{
    if position < level {
        (level - position) as u64
    } else {
        0
    }
}

/// Orders up to a level.
#[derive(Clone, Copy, Debug, PartialEq, Eq)]
pub struct BaseStock {
    level: i64,
    ghost small: { unsigned_abs level ≤ 10 ^ 6 },
}

impl BaseStock {
    pub fn new(level: i64) -> BaseStock
        requires { unsigned_abs level ≤ 10 ^ 6 }
        ensures { result.level ≡ level }
    {
        BaseStock { level }
    }
}

impl OrderRule for BaseStock {
    ghost use Rattle.network_model.specs.declared.network.Rule.TheVariants.{Base};
    ghost use Rattle.network_model.specs.Nodes.{peak_of};
    ghost use Rattle.node_state.specs.Orders.{order_of};
    ghost use Rattle.node_state.specs.Peaks.{order_within};

    type Seen = Local;

    ghost ordered = { λ r p. order_of (Base r.level) p };

    ghost highest = { λ r. peak_of (Base r.level) };

    ghost within_peak = { λ r p h. order_within (Base r.level) p h };

    fn order(&self, position: i64) -> u64 {
        shortfall(self.level, position)
    }

    fn peak(&self) -> u64 {
        above_zero(self.level)
    }
}

/// Orders up to the high level, at positions of at most the low one.
#[derive(Clone, Copy, Debug, PartialEq, Eq)]
pub struct MinMax {
    low: i64,
    high: i64,
    ghost small: { (unsigned_abs low ≤ 10 ^ 6) × (unsigned_abs high ≤ 10 ^ 6) },
    ghost apart: { low <ℤ high },
}

impl MinMax {
    pub fn new(low: i64, high: i64) -> MinMax
        requires low { unsigned_abs low ≤ 10 ^ 6 }
        requires high { unsigned_abs high ≤ 10 ^ 6 }
        requires apart { low <ℤ high }
        ensures low { result.low ≡ low }
        ensures high { result.high ≡ high }
    {
        MinMax { low, high }
    }
}

impl OrderRule for MinMax {
    ghost use Rattle.network_model.specs.declared.network.Rule.TheVariants.{MinMax as MinMaxOf};
    ghost use Rattle.network_model.specs.Nodes.{peak_of};
    ghost use Rattle.node_state.specs.Orders.{order_of};
    ghost use Rattle.node_state.specs.Peaks.{order_within};

    type Seen = Local;

    ghost ordered = { λ r p. order_of (MinMaxOf r.low r.high) p };

    ghost highest = { λ r. peak_of (MinMaxOf r.low r.high) };

    ghost within_peak = { λ r p h. order_within (MinMaxOf r.low r.high) p h };

    fn order(&self, position: i64) -> u64 {
        if position <= self.low {
            shortfall(self.high, position)
        } else {
            0
        }
    }

    fn peak(&self) -> u64 {
        above_zero(self.high)
    }
}

/// Orders whole lots, as few as bring a position of at most the reorder point above it.
#[derive(Clone, Copy, Debug, PartialEq, Eq)]
pub struct ReorderLot {
    reorder: i64,
    lot: u64,
    ghost small: { (unsigned_abs reorder ≤ 10 ^ 6) × (lot ≤ 10 ^ 6) },
    ghost some: { 1 ≤ lot },
}

impl ReorderLot {
    pub fn new(reorder: i64, lot: u64) -> ReorderLot
        requires reorder { unsigned_abs reorder ≤ 10 ^ 6 }
        requires some { 1 ≤ lot }
        requires lot { lot ≤ 10 ^ 6 }
        ensures reorder { result.reorder ≡ reorder }
        ensures lot { result.lot ≡ lot }
    {
        ReorderLot { reorder, lot }
    }
}

// The lots that take up more than is missing.
fn whole_lots(missing: u64, lot: u64) -> u64
    requires missing { missing ≤ 2 * 10 ^ 13 }
    requires some { 1 ≤ lot }
    requires lot { lot ≤ 10 ^ 6 }
    ensures { result ≡ lot * (missing / lot + 1) }
{
    lot * (missing / lot + 1)
}

impl OrderRule for ReorderLot {
    ghost use Rattle.network_model.specs.declared.network.Rule.TheVariants.{Lot};
    ghost use Rattle.network_model.specs.Nodes.{peak_of};
    ghost use Rattle.node_state.specs.Orders.{order_of};
    ghost use Rattle.node_state.specs.Peaks.{order_within};

    type Seen = Local;

    ghost ordered = { λ r p. order_of (Lot r.reorder r.lot) p };

    ghost highest = { λ r. peak_of (Lot r.reorder r.lot) };

    ghost within_peak = { λ r p h. order_within (Lot r.reorder r.lot) p h };

    fn order(&self, position: i64) -> u64 {
        if position <= self.reorder {
            whole_lots(shortfall(self.reorder, position), self.lot)
        } else {
            0
        }
    }

    fn peak(&self) -> u64 {
        above_zero(self.reorder + self.lot as i64)
    }
}

/// Orders up to a level of the stock of the node and of all nodes below it.
#[derive(Clone, Copy, Debug, PartialEq, Eq)]
pub struct EchelonBase {
    level: i64,
    ghost small: { unsigned_abs level ≤ 10 ^ 6 },
}

impl EchelonBase {
    pub fn new(level: i64) -> EchelonBase
        requires { unsigned_abs level ≤ 10 ^ 6 }
        ensures { result.level ≡ level }
    {
        EchelonBase { level }
    }
}

impl OrderRule for EchelonBase {
    ghost use Rattle.network_model.specs.declared.network.Rule.TheVariants.{Echelon};
    ghost use Rattle.network_model.specs.Nodes.{peak_of};
    ghost use Rattle.node_state.specs.Orders.{order_of};
    ghost use Rattle.node_state.specs.Peaks.{order_within};

    type Seen = Whole;

    ghost ordered = { λ r p. order_of (Echelon r.level) p };

    ghost highest = { λ r. peak_of (Echelon r.level) };

    ghost within_peak = { λ r p h. order_within (Echelon r.level) p h };

    fn order(&self, position: i64) -> u64 {
        shortfall(self.level, position)
    }

    fn peak(&self) -> u64 {
        above_zero(self.level)
    }
}

/// The rule that an instance states for a node.
#[derive(Clone, Copy)]
pub struct NodeRule {
    rule: Rule,
}

impl Model for NodeRule {
    ghost use Rattle.network_model.specs.declared.network.Rule.{Rule as RuleOf};
    ghost use Rattle.network_model.specs.Nodes.{IsReadableRule};

    ghost Value = { RuleOf };

    ghost view = { λ r. r.rule };

    ghost inverse = { λ r. record { rule = r } };

    ghost invariant = { λ r. IsReadableRule r.rule };
}

impl NodeRule {
    ghost use Rattle.std.specs.Prelude.{◌≡◌, ◌≤◌, ◌^◌};
    ghost use Rattle.std.specs.Int.RustNames.{unsigned_abs};
    ghost use Rattle.network_model.specs.Nodes.{IsReadableRule, peak_of, is_echelon};
    ghost use Rattle.node_state.specs.Orders.{order_of, house_of};

    pub fn of_rule(rule: &Rule) -> NodeRule
        requires { IsReadableRule rule.now }
        ensures { result ≡ rule.now }
    {
        NodeRule { rule: *rule }
    }

    /// The index of the rule of the caller's own, where it is one.
    pub fn house(&self) -> Option<u32>
        ensures { result ≡ house_of self.now }
    {
        match self.rule {
            Rule::House { index, cap: _ } => Some(index),
            Rule::Base { .. } | Rule::MinMax { .. } | Rule::Lot { .. } | Rule::Echelon { .. } => {
                None
            }
        }
    }

    /// The units that are ordered at a position; none by a rule of the caller's own.
    #[tactic(auto, using(crate::specs::Peaks::small_position))]
    pub fn order(&self, position: i64) -> u64
        requires { unsigned_abs position ≤ 10 ^ 13 }
        ensures { result ≡ order_of self.now position }
    {
        match self.rule {
            Rule::Base { level } => BaseStock::new(level).order(position),
            Rule::MinMax { low, high } => MinMax::new(low, high).order(position),
            Rule::Lot { reorder, lot } => ReorderLot::new(reorder, lot).order(position),
            Rule::Echelon { level } => EchelonBase::new(level).order(position),
            Rule::House { .. } => 0,
        }
    }

    /// The position that no order passes.
    #[tactic(auto, using(crate::specs::Peaks::small_position))]
    pub fn peak(&self) -> u64
        ensures { result ≡ peak_of self.now }
    {
        match self.rule {
            Rule::Base { level } => BaseStock::new(level).peak(),
            Rule::MinMax { low, high } => MinMax::new(low, high).peak(),
            Rule::Lot { reorder, lot } => ReorderLot::new(reorder, lot).peak(),
            Rule::Echelon { level } => EchelonBase::new(level).peak(),
            Rule::House { .. } => 0,
        }
    }

    /// Whether the position is that of the stock of the node and of all nodes below it.
    pub fn is_echelon(&self) -> bool
        ensures { result ≡ is_echelon self.now }
    {
        match self.rule {
            Rule::Base { .. } => <BaseStock as OrderRule>::Seen::ECHELON,
            Rule::MinMax { .. } => <MinMax as OrderRule>::Seen::ECHELON,
            Rule::Lot { .. } => <ReorderLot as OrderRule>::Seen::ECHELON,
            Rule::Echelon { .. } => <EchelonBase as OrderRule>::Seen::ECHELON,
            Rule::House { .. } => false,
        }
    }
}
