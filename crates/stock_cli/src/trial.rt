// The command `trial`: instances that are made, written, read again, solved and checked.
ghost use Rattle.std.specs.Prelude.{◌≡◌, ◌++◌, [], length, map, Some, IfOk, OnOk};
ghost use Rattle.decision_model.specs.Network.{IsValidNetwork};
ghost use Rattle.decision_model.specs.Valid.{IsValid};
ghost use Rattle.node_state.specs.Table.{network_total};
ghost use Rattle.value_cert.specs.Meaning.{solved_cert};
ghost use Rattle.value_cert.specs.Texts.{HasText};
ghost use Rattle.trial_instances.specs.News.{trial_news};
ghost use Rattle.trial_instances.specs.Lots.{trial_lots};
ghost use Rattle.trial_instances.specs.Finite.{trial_finite};
ghost use Rattle.trial_instances.specs.Average.{trial_average};
ghost use Rattle.trial_instances.specs.Serial.{trial_serial};
ghost use Rattle.trial_instances.specs.Network.{trial_network};
ghost use Rattle.stock_cli.specs.Runs.{Stands};
ghost use Rattle.stock_cli.specs.Trial.{IsNetwork, IsTried, solved_line, solved_lines, network_line, network_line_of, trial_text};

use crate::kinds::Kinds;
use crate::subject::Subject;
use cert_check::{Verdict, verdict};
use decision_model::{Instance, Network};
use fraction128::{Memory, Text};
use instance_json::{InstanceErr, read_instance, write_instance};
use network_sim::{Row, Sim};
use node_state::HouseRule;
use report_text::{push_certified, push_last, push_number_tried, push_run};
use std::alloc::Global;
use stock_edge::{Failed, Sink};
use trial_instances::{
    trial_average, trial_finite, trial_lots, trial_network, trial_news, trial_serial,
};
use value_cert::{Cert, write_cert};

// A certificate's text as it is written. A write fails where memory is refused.
#[derive(Drop)]
struct CertText {
    text: Text,
    faults: u64,
}

impl Sink for CertText {
    ghost use Rattle.std.specs.Prelude.{Some};

    ghost written = { λ kept. Some kept.text };

    ghost faults = { λ kept. kept.faults };

    fn write(&mut self, piece: &[u8]) -> Result<usize, Failed> {
        match self.text.push(piece) {
            Ok(()) => Ok(piece.len()),
            Err(Memory) => {
                self.faults = self.faults.saturating_add(1);
                Err(Failed)
            }
        }
    }
}

// Writes an instance and reads it again.
fn reread(alloc: Global, instance: &Instance) -> Result<Instance, Memory>
    requires { IsValid instance.now }
    ensures { IfOk result (λ read. read ≡ instance.now) }
{
    let text = write_instance(alloc, instance)?;
    match read_instance(alloc, &text) {
        Ok(read) => Ok(read),
        Err(InstanceErr::Memory) => Err(Memory),
        Err(InstanceErr::Bad(_)) => unreachable!(),
    }
}

// Writes the solver's certificate and has it checked.
fn accept(alloc: Global, instance: &Instance, cert: &Cert) -> Result<(), Memory>
    requires valid { IsValid instance.now }
    requires solved { solved_cert instance.now ≡ Some cert.now }
    requires has_text { HasText cert.now }
{
    let mut kept = CertText {
        text: Text::new(alloc),
        faults: 0,
    };
    let Ok(()) = write_cert(cert, &mut kept) else {
        return Err(Memory);
    };
    match verdict(alloc, instance, kept.text.bytes())? {
        Verdict::Accepted => Ok(()),
        _ => unreachable!(),
    }
}

// Writes an instance, reads it again, solves it, has its certificate checked, and appends its line.
fn push_solved(out: &mut Text, alloc: Global, made: &Instance) -> Result<(), Memory>
    requires { IsTried made.now }
    ensures { OnOk result (out.new ≡ out.old ++ solved_line made.now) }
{
    let instance = reread(alloc, made)?;
    let cert = Kinds::solve(alloc, &instance)?;
    accept(alloc, &instance, &cert)?;
    push_certified(out, &instance, &cert)
}

// A simulator of a network, to which no rule of the caller's own is handed in.
fn simulator(alloc: Global, net: &Network) -> Result<Sim, Memory>
    requires { IsValidNetwork net.now }
    ensures { IfOk result (λ sim. Stands net.now [] 0 sim (map (λ b. (⟦<dyn HouseRule as HouseRule>⟧ b.vtable).meaning b.value) sim.rules.items)) }
{
    // No node of a trial names such a rule, so only memory can be wanting.
    let Ok(sim) = Sim::new(alloc, net, Vec::new(alloc)) else {
        return Err(Memory);
    };
    Ok(sim)
}

// Runs all periods of a network, to which no rule of the caller's own was handed in, and adds up their costs.
fn run_all(net: &Network, sim: &mut Sim, row: &mut Row) -> Result<u128, Memory>
    requires stands { Stands net.now [] 0 sim.old (map (λ b. (⟦<dyn HouseRule as HouseRule>⟧ b.vtable).meaning b.value) sim.old.rules.items) }
    requires row { length row.old.lines.items ≡ length net.now.nodes }
    ensures { IfOk result (λ total. total ≡ network_total net.now [] net.now.periods) }
{
    for period in 0..net.periods {
        let _period = period;
        // No rule is asked, so no answer ends the run.
        let Ok(()) = sim.draw(row) else {
            return Err(Memory);
        };
    }
    Ok(sim.total())
}

// The costs of all periods of a network, to which no rule of the caller's own is handed in.
fn total_of(alloc: Global, net: &Network) -> Result<u128, Memory>
    requires { IsValidNetwork net.now }
    ensures { IfOk result (λ total. total ≡ network_total net.now [] net.now.periods) }
{
    let mut sim = simulator(alloc, net)?;
    let mut row = Row::new(alloc, net)?;
    run_all(net, &mut sim, &mut row)
}

// Writes a network, reads it again, runs it, and appends its line.
fn push_network(out: &mut Text, alloc: Global, made: &Instance) -> Result<(), Memory>
    requires valid { IsValid made.now }
    requires network { IsNetwork made.now }
    ensures { OnOk result (out.new ≡ out.old ++ network_line_of made.now) }
{
    match reread(alloc, made)? {
        Instance::Network(net) => {
            let total = total_of(alloc, &net)?;
            push_run(out, total)
        }
        _ => unreachable!(),
    }
}

// Makes the newsvendor, solves it and appends its line.
fn push_news(out: &mut Text, alloc: Global, number: u32) -> Result<(), Memory>
    ensures { OnOk result (out.new ≡ out.old ++ solved_line (Instance.News (trial_news number))) }
{
    let made = trial_news(alloc, number)?;
    push_solved(out, alloc, &made)
}

// Makes the lot plan, solves it and appends its line.
fn push_lots(out: &mut Text, alloc: Global, number: u32) -> Result<(), Memory>
    ensures { OnOk result (out.new ≡ out.old ++ solved_line (Instance.Lots (trial_lots number))) }
{
    let made = trial_lots(alloc, number)?;
    push_solved(out, alloc, &made)
}

// Makes the finite horizon, solves it and appends its line.
fn push_finite(out: &mut Text, alloc: Global, number: u32) -> Result<(), Memory>
    ensures { OnOk result (out.new ≡ out.old ++ solved_line (Instance.Finite (trial_finite number))) }
{
    let made = trial_finite(alloc, number)?;
    push_solved(out, alloc, &made)
}

// Makes the average cost, solves it and appends its line.
fn push_average(out: &mut Text, alloc: Global, number: u32) -> Result<(), Memory>
    ensures { OnOk result (out.new ≡ out.old ++ solved_line (Instance.Average (trial_average number))) }
{
    let made = trial_average(alloc, number)?;
    push_solved(out, alloc, &made)
}

// Makes the serial system, solves it and appends its line.
fn push_serial(out: &mut Text, alloc: Global, number: u32) -> Result<(), Memory>
    ensures { OnOk result (out.new ≡ out.old ++ solved_line (Instance.Serial (trial_serial number))) }
{
    let made = trial_serial(alloc, number)?;
    push_solved(out, alloc, &made)
}

// Appends the lines of the five instances that are solved.
#[tactic(auto, unfolding(crate::specs::Trial::solved_lines))]
fn push_all_solved(out: &mut Text, alloc: Global, number: u32) -> Result<(), Memory>
    ensures { OnOk result (out.new ≡ out.old ++ solved_lines number) }
{
    push_news(out, alloc, number)?;
    push_lots(out, alloc, number)?;
    push_finite(out, alloc, number)?;
    push_average(out, alloc, number)?;
    push_serial(out, alloc, number)
}

// Makes the network, runs it and appends its line.
fn push_made_network(out: &mut Text, alloc: Global, number: u32) -> Result<(), Memory>
    ensures { OnOk result (out.new ≡ out.old ++ network_line (trial_network number)) }
{
    let made = trial_network(alloc, number)?;
    push_network(out, alloc, &made)
}

/// The text of the trial of a number: six instances are made of it, written and read again; five are solved and their
/// certificates checked, and the network is run.
#[tactic(auto, unfolding(crate::specs::Trial::trial_text))]
pub fn trial(alloc: Global, number: u32) -> Result<Text, Memory>
    ensures { IfOk result (λ text. text ≡ trial_text number) }
{
    let mut text = Text::new(alloc);
    push_number_tried(&mut text, number)?;
    push_all_solved(&mut text, alloc, number)?;
    push_made_network(&mut text, alloc, number)?;
    push_last(&mut text)?;
    Ok(text)
}
