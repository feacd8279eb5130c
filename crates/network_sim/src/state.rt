// What a simulator holds, and how a period changes it.
ghost use Rattle.std.specs.Prelude.{◌≡◌, ℕ, suc, ◌-◌, ◌<◌, ◌≤◌, List, IfOk, length, map, None, OnOk, OnErr, IfErr};
ghost use Rattle.network_model.specs.Network.{IsValidNetwork};
ghost use Rattle.node_state.specs.Totals.{Setting};
ghost use Rattle.node_state.specs.Table.{row as row_of};
ghost use Rattle.node_state.specs.Handed.{Handed};
ghost use Rattle.network_sim.specs.Houses.{period_over, HaveAnswered};
ghost use Rattle.network_sim.specs.Simulated.{IsStateAfter, CanAdvance, AreDemands, AreFit, IsCutShort};

use crate::errors::RuleOver;
use crate::pauses::Paused;
use crate::period::run_period;
use crate::rows::{Row, add_demands, note_ordered, sum_costs, write_lines};
use crate::station::Station;
use crate::stations::{find_stations, make_nodes};
use crate::wiring::wire;
use disruption::Calendar;
use fraction128::Memory;
use network_model::Network;
use node_state::{HouseRule, Node};
use std::alloc::Global;

/// What a simulator holds.
#[derive(Drop)]
pub struct State {
    // The nodes, and what is known of each from the start.
    pub nodes: Vec<Node>,
    pub stations: Vec<Station>,
    pub calendar: Calendar,
    // All that the customers of each node have demanded so far.
    pub demanded: Vec<u64>,
    // Room for what each node had ordered before a period, and for what pauses in it.
    pub ordered: Vec<u64>,
    pub paused: Paused,
    // The network's periods, those that were run, and what these cost.
    pub periods: u32,
    pub played: u32,
    pub total: u128,
}

impl State {
    /// The state before the first period.
    pub fn new(alloc: Global, network: &Network) -> Result<State, Memory>
        requires { IsValidNetwork network.now }
        ensures { IfOk result (λ state. (demand : ℕ → ℕ → ℕ) (handed : List Handed) → IsStateAfter (record { network = network.now; demand = demand; handed = handed }) 0 state) }
    {
        let count = network.nodes.as_slice().len();
        let wiring = wire(alloc, network)?;
        let stations = find_stations(alloc, network, wiring)?;
        let nodes = make_nodes(alloc, network, &stations)?;
        let Ok(calendar) = Calendar::new(alloc, network.pauses.as_slice()) else {
            return Err(Memory);
        };
        let paused = Paused::new(alloc, count)?;
        let demanded = vec![in alloc; 0u64; count]?;
        let ordered = vec![in alloc; 0u64; count]?;
        Ok(State {
            nodes,
            stations,
            calendar,
            demanded,
            ordered,
            paused,
            periods: network.periods,
            played: 0,
            total: 0,
        })
    }

    /// Runs the next period with these demands, one a node, and writes its row. The first answer of a rule that passes its
    /// cap ends it; then the row stays as it was.
    pub fn advance(
        &mut self,
        demands: &[u32],
        rules: &mut [Box<dyn HouseRule>],
        caps: &[u64],
        row: &mut Row,
    ) -> Result<(), RuleOver>
        requires { CanAdvance self.old demands.now row.old.lines.items (map meaning rules.old) caps.now }
        ensures stands { (s : Setting) (n : ℕ) → IsStateAfter s n self.old → AreFit s n (map meaning rules.old) caps.now → suc n ≤ s.network.periods → AreDemands s (suc n) demands.now → OnOk result (IsStateAfter s (suc n) self.new) }
        ensures row { (s : Setting) (n : ℕ) → IsStateAfter s n self.old → AreFit s n (map meaning rules.old) caps.now → suc n ≤ s.network.periods → AreDemands s (suc n) demands.now → OnOk result (row.new.lines.items ≡ row_of s n) }
        ensures within { (s : Setting) (n : ℕ) → IsStateAfter s n self.old → AreFit s n (map meaning rules.old) caps.now → suc n ≤ s.network.periods → AreDemands s (suc n) demands.now → OnOk result (period_over s n ≡ None) }
        ensures answered { (s : Setting) (n : ℕ) → IsStateAfter s n self.old → AreFit s n (map meaning rules.old) caps.now → suc n ≤ s.network.periods → AreDemands s (suc n) demands.now → OnOk result (HaveAnswered s (suc n) 0 (map meaning rules.new)) }
        ensures over { (s : Setting) (n : ℕ) → IsStateAfter s n self.old → AreFit s n (map meaning rules.old) caps.now → suc n ≤ s.network.periods → AreDemands s (suc n) demands.now → IfErr result (λ over. IsCutShort s n over (map meaning rules.new)) }
        ensures rules { length rules.new ≡ length rules.old }
        ensures periods { OnErr result (self.new.periods ≡ self.old.periods) }
        ensures played { OnErr result (self.new.played ≡ self.old.played) }
        ensures total { OnErr result (self.new.total ≡ self.old.total) }
        ensures kept { OnErr result (row.new ≡ row.old) }
    {
        self.paused.note(&self.calendar, self.played + 1);
        note_ordered(&self.nodes, &mut self.ordered);
        add_demands(&mut self.demanded, demands);
        run_period(
            &mut self.nodes,
            &self.stations,
            &self.demanded,
            demands,
            &self.paused,
            rules,
            caps,
        )?;
        write_lines(&self.nodes, &self.stations, &self.ordered, &mut row.lines);
        self.total += sum_costs(&row.lines);
        self.played += 1;
        Ok(())
    }
}
