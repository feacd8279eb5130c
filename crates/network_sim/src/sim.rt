// The simulator.
ghost use Rattle.std.specs.Prelude.{◌≡◌, ◌⊎◌, ℕ, suc, ◌-◌, ◌<◌, ◌≤◌, List, IfOk, OnOk, OnErr, IfErr, Err, Some, None, is_some, length, map};
ghost use Rattle.network_model.specs.declared.network.Network.{Network};
ghost use Rattle.network_model.specs.Network.{IsValidNetwork};
ghost use Rattle.node_state.specs.Handed.{Handed};
ghost use Rattle.node_state.specs.Totals.{Setting};
ghost use Rattle.node_state.specs.Table.{row as row_of, total_cost, setting_of, network_row};
ghost use Rattle.node_state.specs.Draws.{network_generator};
ghost use Rattle.network_sim.specs.declared.errors.RuleOver.{RuleOver};
ghost use Rattle.network_sim.specs.Houses.{rules_refusal, period_over, IsRefusalOf};
ghost use Rattle.network_sim.specs.Simulated.{HasRun, IsAfter, IsOver, HasDrawn, CanPlay, CanDraw, IsEnded, AreDemands};

use crate::draws::draw_demands;
use crate::errors::{RuleOver, SimErr};
use crate::house::{caps_of, check_rules};
use crate::rows::Row;
use crate::state::State;
use network_model::Network;
use node_state::HouseRule;
use rand_pcg::Lcg64Xsh32;
use std::alloc::Global;

// The generator of a network's draws; where it has no seed, nothing is drawn.
fn generator(seed: Option<u32>) -> Lcg64Xsh32
    ensures { result ≡ network_generator seed }
{
    let state = match seed {
        Some(seed) => u64::from(seed),
        None => 0,
    };
    Lcg64Xsh32::new(state, 1)
}

/// A network that is simulated period by period.
#[derive(Drop)]
pub struct Sim {
    state: State,
    // Room for the demands of a period, and where their words come from.
    drawn: Vec<u32>,
    words: Lcg64Xsh32,
    // The rules of the caller's own, and the most that each may answer, as it was when the simulator was made.
    rules: Vec<Box<dyn HouseRule>>,
    caps: Vec<u64>,
    // The answer that ended the run.
    over: Option<RuleOver>,
}

impl Sim {
    /// A simulator of a network before its first period, with the order rules that its nodes name by their indices.
    /// All memory is taken here. The nodes are taken in listed order; the first whose rule isn't there, is that of an
    /// earlier node, or may answer more than the node says, refuses. No rule is asked then, and all are dropped.
    pub fn new(
        alloc: Global,
        network: &Network,
        rules: Vec<Box<dyn HouseRule>>,
    ) -> Result<Sim, SimErr>
        requires { IsValidNetwork network.now }
        ensures stands { IfOk result (λ sim. (demand : ℕ → ℕ → ℕ) → IsAfter (record { network = network.now; demand = demand; handed = map meaning rules.items }) 0 sim (map meaning sim.rules.items)) }
        ensures drawn { IfOk result (HasDrawn network.now 0) }
        ensures refused { IfErr result (IsRefusalOf (rules_refusal network.now.nodes (map meaning rules.items))) }
    {
        check_rules(network.nodes.as_slice(), &rules)?;
        let caps = caps_of(alloc, &rules)?;
        let state = State::new(alloc, network)?;
        let drawn = vec![in alloc; 0u32; network.nodes.as_slice().len()]?;
        Ok(Sim {
            state,
            drawn,
            words: generator(network.seed),
            rules,
            caps,
            over: None,
        })
    }

    /// Runs the next period with these demands, one a node, and writes its row. Each rule of the caller's own is asked
    /// once. The first answer above its rule's cap ends the run: no further rule is asked, the row stays as it was, and
    /// from then on each call answers the same.
    pub fn period(&mut self, demands: &[u32], row: &mut Row) -> Result<(), RuleOver>
        requires { CanPlay self.old (map meaning self.old.rules.items) demands.now row.old.lines.items ⊎ IsEnded self.old }
        ensures stands { (s : Setting) (n : ℕ) → IsAfter s n self.old (map meaning self.old.rules.items) → suc n ≤ s.network.periods → AreDemands s (suc n) demands.now → OnOk result (IsAfter s (suc n) self.new (map meaning self.new.rules.items)) }
        ensures row { (s : Setting) (n : ℕ) → IsAfter s n self.old (map meaning self.old.rules.items) → suc n ≤ s.network.periods → AreDemands s (suc n) demands.now → OnOk result (row.new.lines.items ≡ row_of s n) }
        ensures within { (s : Setting) (n : ℕ) → IsAfter s n self.old (map meaning self.old.rules.items) → suc n ≤ s.network.periods → AreDemands s (suc n) demands.now → OnOk result (period_over s n ≡ None) }
        ensures over { (s : Setting) (n : ℕ) → IsAfter s n self.old (map meaning self.old.rules.items) → suc n ≤ s.network.periods → AreDemands s (suc n) demands.now → IfErr result (λ over. IsOver s n over self.new (map meaning self.new.rules.items)) }
        ensures ended { (over : RuleOver) → self.old.over ≡ Some over → (result ≡ Err over) × (self.new ≡ self.old) }
        ensures kept { OnErr result (row.new ≡ row.old) }
    {
        if let Some(over) = self.over {
            return Err(over);
        }
        let played = self
            .state
            .advance(demands, &mut self.rules, &self.caps, row);
        self.over = played.err();
        played
    }

    /// Runs the next period with the demands that the network states or that are drawn, and writes its row, as `period`
    /// does. For each node with a law, in listed order, one word is taken from the network's generator.
    pub fn draw(&mut self, row: &mut Row) -> Result<(), RuleOver>
        requires { CanDraw self.old (map meaning self.old.rules.items) row.old.lines.items ⊎ IsEnded self.old }
        ensures stands { (net : Network) (handed : List Handed) (n : ℕ) → IsAfter (setting_of net handed) n self.old (map meaning self.old.rules.items) → HasDrawn net n self.old → suc n ≤ net.periods → OnOk result (IsAfter (setting_of net handed) (suc n) self.new (map meaning self.new.rules.items) × HasDrawn net (suc n) self.new) }
        ensures row { (net : Network) (handed : List Handed) (n : ℕ) → IsAfter (setting_of net handed) n self.old (map meaning self.old.rules.items) → HasDrawn net n self.old → suc n ≤ net.periods → OnOk result (row.new.lines.items ≡ network_row net handed n) }
        ensures within { (net : Network) (handed : List Handed) (n : ℕ) → IsAfter (setting_of net handed) n self.old (map meaning self.old.rules.items) → HasDrawn net n self.old → suc n ≤ net.periods → OnOk result (period_over (setting_of net handed) n ≡ None) }
        ensures over { (net : Network) (handed : List Handed) (n : ℕ) → IsAfter (setting_of net handed) n self.old (map meaning self.old.rules.items) → HasDrawn net n self.old → suc n ≤ net.periods → IfErr result (λ over. IsOver (setting_of net handed) n over self.new (map meaning self.new.rules.items)) }
        ensures ended { (over : RuleOver) → self.old.over ≡ Some over → (result ≡ Err over) × (self.new ≡ self.old) }
        ensures kept { OnErr result (row.new ≡ row.old) }
    {
        if let Some(over) = self.over {
            return Err(over);
        }
        let t = self.state.played as usize;
        draw_demands(&self.state.stations, t, &mut self.words, &mut self.drawn);
        let played = self
            .state
            .advance(&self.drawn, &mut self.rules, &self.caps, row);
        self.over = played.err();
        played
    }

    /// The network's periods less those that were run.
    pub fn periods_left(&self) -> u32
        ensures { (s : Setting) (n : ℕ) → HasRun s n self.now → result ≡ s.network.periods - n }
    {
        self.state.periods.saturating_sub(self.state.played)
    }

    /// Whether an answer above its rule's cap ended the run.
    pub fn failed(&self) -> bool
        ensures { result ≡ is_some self.now.over }
    {
        self.over.is_some()
    }

    /// The sum of the costs of all rows so far.
    pub fn total(&self) -> u128
        ensures { (s : Setting) (n : ℕ) → HasRun s n self.now → result ≡ total_cost s n }
    {
        self.state.total
    }
}
