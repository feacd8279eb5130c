// A period of the whole network.
ghost use Rattle.std.specs.Prelude.{◌≡◌, ℕ, suc, ◌<◌, length, map, None, OnOk, IfErr};
ghost use Rattle.node_state.specs.Totals.{Setting};
ghost use Rattle.network_sim.specs.Houses.{period_over, HaveAnswered};
ghost use Rattle.network_sim.specs.Simulated.{IsReady, CanRun, Holds, IsCutShort};

use crate::errors::RuleOver;
use crate::orders::order_pass;
use crate::pauses::Paused;
use crate::station::Station;
use crate::supply::supply_pass;
use node_state::{HouseRule, Node};

/// Runs a period: orders from the first node to the last, then units from the last to the first. The first answer of a rule
/// that passes its cap ends it.
pub fn run_period(
    nodes: &mut [Node],
    stations: &[Station],
    demanded: &[u64],
    demands: &[u32],
    paused: &Paused,
    rules: &mut [Box<dyn HouseRule>],
    caps: &[u64],
) -> Result<(), RuleOver>
    requires { CanRun nodes.old stations.now demanded.now demands.now paused.now (map meaning rules.old) caps.now }
    ensures all { OnOk result (length nodes.new ≡ length nodes.old) }
    ensures kept { length rules.new ≡ length rules.old }
    ensures holds { (s : Setting) (t : ℕ) → IsReady s t nodes.old stations.now demanded.now demands.now paused.now (map meaning rules.old) caps.now → OnOk result (Holds s (suc t) nodes.new) }
    ensures within { (s : Setting) (t : ℕ) → IsReady s t nodes.old stations.now demanded.now demands.now paused.now (map meaning rules.old) caps.now → OnOk result (period_over s t ≡ None) }
    ensures answered { (s : Setting) (t : ℕ) → IsReady s t nodes.old stations.now demanded.now demands.now paused.now (map meaning rules.old) caps.now → OnOk result (HaveAnswered s (suc t) 0 (map meaning rules.new)) }
    ensures over { (s : Setting) (t : ℕ) → IsReady s t nodes.old stations.now demanded.now demands.now paused.now (map meaning rules.old) caps.now → IfErr result (λ over. IsCutShort s t over (map meaning rules.new)) }
{
    order_pass(
        nodes,
        stations,
        demanded,
        demands,
        &paused.orders,
        rules,
        caps,
    )?;
    supply_pass(nodes, stations, &paused.receipts, &paused.shipments);
    Ok(())
}
