// What a run puts on standard output.
ghost use Rattle.std.specs.Prelude.{◌≡◌, ◌≤◌, Ok, OnOk, IfErr, map};
ghost use Rattle.std.specs.Io.KnownBytes.{Appends};
ghost use Rattle.stock_edge.specs.Causes.{AppendsPrefix, HasCause, Rose};
ghost use Rattle.stock_cli.specs.Outcome.{output_of, outcome_of, task_plan, task_status, text_of, AnswerHasText, CanBeDone, Finishes, EndsBy};
ghost use Rattle.stock_cli.specs.Status.{IsOfWriting};

use crate::any_cert::{AnyCert, write_any};
use crate::runs::run_network;
use crate::status::Status;
use decision_model::Network;
use fraction128::Text;
use node_state::HouseRule;
use report_text::{Fault, help_text};
use std::alloc::Global;
use stock_edge::{Failed, Sink, write_all};

/// What is to be written, before any of it is.
#[derive(Drop)]
pub enum Answer {
    /// A text.
    Printed(Text),
    /// The text of a check that rejects a certificate.
    Rejection(Text),
    /// A certificate, whose text is made as it is written.
    Certificate(AnyCert),
    /// The text of `help`.
    Help,
}

/// What is left to do, once all inputs are read.
#[derive(Drop)]
pub enum Task {
    Write(Answer),
    /// To run a network, and to write its table meanwhile.
    Run(Network),
}

/// The status of a run that has done its task.
pub fn status_with(task: &Task) -> Status
    ensures { result ≡ task_status task.now }
{
    match task {
        Task::Write(Answer::Rejection(_)) => Status::Rejected,
        _ => Status::Done,
    }
}

// Writes an answer. After a fault a prefix of it was written.
fn write_answer<O: Sink>(answer: &Answer, out: &mut O) -> Result<(), Failed>
    requires { AnswerHasText answer.now }
    ensures whole { OnOk result (Appends (O.written out.old) (O.written out.new) (output_of answer.now).text) }
    ensures prefix { AppendsPrefix (O.written out.old) (O.written out.new) (output_of answer.now).text }
    ensures cause { HasCause (O.faults out.old) (O.faults out.new) result }
{
    match answer {
        Answer::Printed(text) => write_all(out, text.bytes()),
        Answer::Rejection(text) => write_all(out, text.bytes()),
        Answer::Certificate(cert) => write_any(cert, out),
        Answer::Help => write_all(out, help_text().as_bytes()),
    }
}

/// Does what is left to do, with the rules that the caller hands in, which only the run of a network asks. After a fault
/// a prefix of the text was written. Only the run of a network takes memory.
pub fn perform_task<O: Sink>(
    alloc: Global,
    task: &Task,
    rules: Vec<Box<dyn HouseRule>>,
    out: &mut O,
) -> Result<(), Fault>
    requires { CanBeDone task.now }
    ensures whole { OnOk result (Finishes (outcome_of (map (λ b. (⟦<dyn HouseRule as HouseRule>⟧ b.vtable).meaning b.value) rules.items) (Ok (task_plan task.now))) (task_status task.now) (O.written out.old) (O.written out.new)) }
    ensures part { AppendsPrefix (O.written out.old) (O.written out.new) (text_of (outcome_of (map (λ b. (⟦<dyn HouseRule as HouseRule>⟧ b.vtable).meaning b.value) rules.items) (Ok (task_plan task.now)))) }
    ensures cut { IfErr result (EndsBy (Rose (O.faults out.old) (O.faults out.new)) (outcome_of (map (λ b. (⟦<dyn HouseRule as HouseRule>⟧ b.vtable).meaning b.value) rules.items) (Ok (task_plan task.now))) (O.written out.old) (O.written out.new)) }
    ensures of_writing { IfErr result IsOfWriting }
    ensures later { O.faults out.old ≤ O.faults out.new }
    ensures help { task.now ≡ Task.Write Answer.Help → IfErr result (λ fault. fault ≡ Fault.WriteFault) }
{
    match task {
        Task::Write(answer) => match write_answer(answer, out) {
            Ok(()) => Ok(()),
            Err(Failed) => Err(Fault::WriteFault),
        },
        Task::Run(net) => run_network(alloc, net, rules, out),
    }
}
