// A network period by period: each period's lines are written before the next period runs.
ghost use Rattle.std.specs.Prelude.{◌≡◌, ℕ, ◌+◌, ◌≤◌, ◌<◌, List, length, map, Ok, Err, IfOk, IfErr, OnOk};
ghost use Rattle.std.specs.Io.KnownBytes.{Appends};
ghost use Rattle.decision_model.specs.Network.{IsValidNetwork};
ghost use Rattle.node_state.specs.Handed.{Handed};
ghost use Rattle.node_state.specs.Table.{setting_of};
ghost use Rattle.network_sim.specs.Houses.{rules_refusal};
ghost use Rattle.network_sim.specs.Simulated.{IsAfter, HasDrawn};
ghost use Rattle.report_text.specs.Network.{period_lines, total_line};
ghost use Rattle.stock_edge.specs.Causes.{Rose, AppendsPrefix};
ghost use Rattle.stock_cli.specs.Outcome.{network_outcome, text_of, Finishes, EndsBy};
ghost use Rattle.stock_cli.specs.Runs.{Stands, StandsForSome, RanPeriod, RanAll, run_of, run_text, sim_fault, IsCutShort, IsRefusedBy};
ghost use Rattle.stock_cli.specs.Status.{IsOfWriting};
ghost use Rattle.stock_cli.specs.declared.status.Status.{Status};

use decision_model::Network;
use fraction128::{Memory, Text};
use network_sim::{Row, RuleOver, Sim, SimErr};
use node_state::HouseRule;
use report_text::{Fault, push_period, push_total};
use std::alloc::Global;
use stock_edge::{Failed, Sink, write_all};

/// Why a network didn't run to its end.
#[derive(Clone, Copy, Debug, PartialEq, Eq)]
pub enum RunErr {
    /// A rule of the caller's own answered more than its cap.
    Over(RuleOver),
    /// The lines couldn't be written.
    Write,
    /// Memory was refused.
    Memory,
}

impl From<RuleOver> for RunErr {
    ghost use Rattle.stock_cli.specs.declared.runs.RunErr.TheVariants.{Over};

    ghost from_gives = { λ over e. e ≡ Over over };

    fn from(over: RuleOver) -> RunErr {
        RunErr::Over(over)
    }
}

impl From<Failed> for RunErr {
    ghost use Rattle.stock_cli.specs.declared.runs.RunErr.TheVariants.{Write as Unwritten};

    ghost from_gives = { λ _ e. e ≡ Unwritten };

    fn from(_refused: Failed) -> RunErr {
        RunErr::Write
    }
}

impl From<Memory> for RunErr {
    ghost use Rattle.stock_cli.specs.declared.runs.RunErr.TheVariants.{Memory as Wanting};

    ghost from_gives = { λ _ e. e ≡ Wanting };

    fn from(_refused: Memory) -> RunErr {
        RunErr::Memory
    }
}

impl From<RunErr> for Fault {
    ghost use Rattle.stock_cli.specs.Runs.{run_fault};

    ghost from_gives = { λ e fault. fault ≡ run_fault e };

    fn from(cut: RunErr) -> Fault {
        match cut {
            RunErr::Over(over) => Fault::RuleOver(over),
            RunErr::Write => Fault::WriteFault,
            RunErr::Memory => Fault::Memory,
        }
    }
}

// Writes the lines of a period, from 1.
fn write_period<K: Sink>(
    net: &Network,
    period: u32,
    row: &Row,
    text: &mut Text,
    out: &mut K,
) -> Result<(), RunErr>
    requires row { length row.now.lines.items ≡ length net.now.nodes }
    ensures written { OnOk result (Appends (K.written out.old) (K.written out.new) (period_lines period net.now.nodes row.now.lines.items)) }
    ensures part { AppendsPrefix (K.written out.old) (K.written out.new) (period_lines period net.now.nodes row.now.lines.items) }
    ensures not_over { IfErr result IsCutShort }
    ensures later { K.faults out.old ≤ K.faults out.new }
    ensures cause { result ≡ Err RunErr.Write → Rose (K.faults out.old) (K.faults out.new) }
{
    text.clear();
    push_period(text, net, period, row)?;
    write_all(out, text.bytes())?;
    Ok(())
}

// Runs the next period, counted from 0, and then writes its lines.
fn run_period<K: Sink>(
    net: &Network,
    period: u32,
    sim: &mut Sim,
    row: &mut Row,
    text: &mut Text,
    out: &mut K,
) -> Result<(), RunErr>
    requires left { period < net.now.periods }
    requires stands { StandsForSome net.now period sim.old (map (λ b. (⟦<dyn HouseRule as HouseRule>⟧ b.vtable).meaning b.value) sim.old.rules.items) }
    requires row { length row.old.lines.items ≡ length net.now.nodes }
    ensures ran { (handed : List Handed) → Stands net.now handed period sim.old (map (λ b. (⟦<dyn HouseRule as HouseRule>⟧ b.vtable).meaning b.value) sim.old.rules.items) → RanPeriod net.now handed period sim.new (map (λ b. (⟦<dyn HouseRule as HouseRule>⟧ b.vtable).meaning b.value) sim.new.rules.items) (K.written out.old) (K.written out.new) result }
    ensures row { length row.new.lines.items ≡ length net.now.nodes }
    ensures later { K.faults out.old ≤ K.faults out.new }
    ensures cause { result ≡ Err RunErr.Write → Rose (K.faults out.old) (K.faults out.new) }
{
    sim.draw(row)?;
    write_period(net, period + 1, row, text, out)
}

// Writes the total.
fn write_total<K: Sink>(text: &mut Text, total: u128, out: &mut K) -> Result<(), RunErr>
    ensures written { OnOk result (Appends (K.written out.old) (K.written out.new) (total_line total)) }
    ensures part { AppendsPrefix (K.written out.old) (K.written out.new) (total_line total) }
    ensures not_over { IfErr result IsCutShort }
    ensures later { K.faults out.old ≤ K.faults out.new }
    ensures cause { result ≡ Err RunErr.Write → Rose (K.faults out.old) (K.faults out.new) }
{
    text.clear();
    push_total(text, total)?;
    write_all(out, text.bytes())?;
    Ok(())
}

/// Runs all periods of a network, of which none was run, and writes the table: each period's lines before the next
/// period runs, in one write or more, and at the end the total. An answer above its rule's cap ends it behind the lines
/// of the periods before. Where it is cut short after some periods, the lines of those before the last of them were
/// written, and nothing past its own.
pub fn run_rows<K: Sink>(
    alloc: Global,
    net: &Network,
    sim: &mut Sim,
    row: &mut Row,
    out: &mut K,
) -> Result<(), RunErr>
    requires valid { IsValidNetwork net.now }
    requires stands { StandsForSome net.now 0 sim.old (map (λ b. (⟦<dyn HouseRule as HouseRule>⟧ b.vtable).meaning b.value) sim.old.rules.items) }
    requires row { length row.old.lines.items ≡ length net.now.nodes }
    ensures ran { (handed : List Handed) → Stands net.now handed 0 sim.old (map (λ b. (⟦<dyn HouseRule as HouseRule>⟧ b.vtable).meaning b.value) sim.old.rules.items) → RanAll net.now handed sim.new (map (λ b. (⟦<dyn HouseRule as HouseRule>⟧ b.vtable).meaning b.value) sim.new.rules.items) (K.written out.old) (K.written out.new) result }
    ensures part { (handed : List Handed) → Stands net.now handed 0 sim.old (map (λ b. (⟦<dyn HouseRule as HouseRule>⟧ b.vtable).meaning b.value) sim.old.rules.items) → AppendsPrefix (K.written out.old) (K.written out.new) (run_text net.now handed (run_of net.now handed net.now.periods)) }
    ensures later { K.faults out.old ≤ K.faults out.new }
    ensures cause { result ≡ Err RunErr.Write → Rose (K.faults out.old) (K.faults out.new) }
{
    let mut text = Text::new(alloc);
    for period in 0..net.periods {
        run_period(net, period, sim, row, &mut text, out)?;
    }
    write_total(&mut text, sim.total(), out)
}

// A simulator of a network with these rules.
fn simulator(alloc: Global, net: &Network, rules: Vec<Box<dyn HouseRule>>) -> Result<Sim, Fault>
    requires { IsValidNetwork net.now }
    ensures stands { IfOk result (λ sim. Stands net.now (map meaning rules.items) 0 sim (map meaning sim.rules.items)) }
    ensures refused { IfErr result (IsRefusedBy (rules_refusal net.now.nodes (map meaning rules.items))) }
{
    match Sim::new(alloc, net, rules) {
        Ok(sim) => Ok(sim),
        Err(SimErr::NoRule(index)) => Err(Fault::NoRule(index)),
        Err(SimErr::RuleShared(index)) => Err(Fault::RuleShared(index)),
        Err(SimErr::RuleCap(index)) => Err(Fault::RuleCap(index)),
        Err(SimErr::Memory) => Err(Fault::Memory),
    }
}

/// Runs a network from the start with these rules and writes its table, as `run_rows` does.
pub(crate) fn run_network<K: Sink>(
    alloc: Global,
    net: &Network,
    rules: Vec<Box<dyn HouseRule>>,
    out: &mut K,
) -> Result<(), Fault>
    requires { IsValidNetwork net.now }
    ensures whole { OnOk result (Finishes (network_outcome net.now (map meaning rules.items)) Status.Done (K.written out.old) (K.written out.new)) }
    ensures part { AppendsPrefix (K.written out.old) (K.written out.new) (text_of (network_outcome net.now (map meaning rules.items))) }
    ensures cut { IfErr result (EndsBy (Rose (K.faults out.old) (K.faults out.new)) (network_outcome net.now (map meaning rules.items)) (K.written out.old) (K.written out.new)) }
    ensures of_writing { IfErr result IsOfWriting }
    ensures later { K.faults out.old ≤ K.faults out.new }
{
    let mut sim = simulator(alloc, net, rules)?;
    let mut row = Row::new(alloc, net)?;
    run_rows(alloc, net, &mut sim, &mut row, out)?;
    Ok(())
}
