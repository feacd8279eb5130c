// The top call.
ghost use Rattle.std.specs.Prelude.{◌≡◌, ◌⊎◌, ◌≤◌, ℕ, List, map, None, Some, Ok, Err, IfOk, IfErr, IfSome, IsOk, IsSome};
ghost use Rattle.std.specs.Io.KnownBytes.{Appends, IsAtEnd};
ghost use Rattle.std.specs.declared.option.Option.{Option};
ghost use Rattle.stock_edge.specs.Causes.{Rose, AppendsPrefix};
ghost use Rattle.stock_cli.specs.Asks.{asked_of};
ghost use Rattle.stock_cli.specs.Causes.{words_fault, IsCheck, TakesInput, ReadsInput, ReadsNoFile, counts_of, FailsOne, IsUnread, IsRefused, IsToldOf, IsTold, HasMessage};
ghost use Rattle.stock_cli.specs.Commands.{ending_of, plan_of, Claims, PlanClaims};
ghost use Rattle.stock_cli.specs.Inputs.{contents};
ghost use Rattle.stock_cli.specs.Outcome.{status_of_outcome, task_plan, task_status, text_of, CanBeDone};
ghost use Rattle.stock_cli.specs.Status.{IsDecided, IsOfInputs, WritesNothing};
ghost use Rattle.stock_cli.specs.Told.{told_of};
ghost use Rattle.stock_cli.specs.Words.{command_of};

use crate::answers::{Answer, Task, perform_task, status_with};
use crate::asked::{About, Asked, asked_of};
use crate::commands::task_of;
use crate::status::{Status, status_for};
use crate::words::{Action, Command, read_words};
use fraction128::Memory;
use node_state::HouseRule;
use report_text::{Fault, cannot_write_text, fault_text};
use std::alloc::Global;
use stock_edge::{Files, Sink, Source, write_all};

// What is left to do for the words, once the inputs are read; nothing is written before.
fn perform<I: Source, F: Files>(
    alloc: Global,
    words: &[String],
    input: &mut I,
    files: &mut F,
) -> Result<Task, Fault>
    ensures ok { IfOk result (λ task. IfSome (plan_of (I.left input.old) (F.held files.old) words.now) (λ end. end ≡ Ok (task_plan task))) }
    ensures claims { IfOk result (λ task. (command : Command) → command_of words.now ≡ Ok command → task_status task ≡ Status.Done →
        PlanClaims (I.left input.old) (F.held files.old) words.now (task_plan task) (asked_of command)) }
    ensures can { IfOk result CanBeDone }
    ensures end { IfOk result (λ task. task_status task ≡ Status.Done → TakesInput (command_of words.now) None → IsAtEnd (I.left input.new)) }
    ensures rejects { IfOk result (λ task. task_status task ≡ Status.Rejected → IsCheck (command_of words.now)) }
    ensures help { command_of words.now ≡ Ok Command.Help → result ≡ Ok (Task.Write Answer.Help) }
    ensures words { (fault : Fault) → words_fault words.now ≡ Some fault → result ≡ Err fault }
    ensures refused { IfErr result (IsRefused
        (IsUnread (counts_of (I.faults input.old) (I.faults input.new) (F.faults files.old) (F.faults files.new))
        (ReadsInput (I.left input.old) (F.held files.old) words.now (command_of words.now)))
        (plan_of (I.left input.old) (F.held files.old) words.now)) }
    ensures of_words { IfErr result (λ fault. IsOfInputs fault ⊎ (words_fault words.now ≡ Some fault)) }
    ensures later_input { I.faults input.old ≤ I.faults input.new }
    ensures later_files { F.faults files.old ≤ F.faults files.new }
    ensures spared_input { (ReadsInput (I.left input.old) (F.held files.old) words.now (command_of words.now) None → ⊥) → input.new ≡ input.old }
    ensures spared_files { ReadsNoFile (ReadsInput (I.left input.old) (F.held files.old) words.now (command_of words.now)) → files.new ≡ files.old }
    ensures reach { (command : Command) (about : About) (place : Option ℕ) → command_of words.now ≡ Ok command →
        asked_of command ≡ Asked.Action about (Action.Check place None) → (input.new ≡ input.old) ⊎
        (told_of about).Reaches (contents (I.left input.old) (F.held files.old) words.now place) (I.left input.old) (I.left input.new) }
{
    match read_words(words) {
        Ok(command) => task_of(alloc, words, asked_of(command), input, files),
        Err(wrong) => Err(Fault::from(wrong)),
    }
}

// Writes a message to standard error, or the front of it.
fn tell<E: Sink>(err: &mut E, message: &[u8])
    ensures part { AppendsPrefix (E.written err.old) (E.written err.new) message.now }
    ensures whole { Appends (E.written err.old) (E.written err.new) message.now ⊎ Rose (E.faults err.old) (E.faults err.new) }
{
    // A failed message changes neither the output nor the status.
    let _ = write_all(err, message);
}

// Tells standard error why the run is refused.
fn refuse<E: Sink>(alloc: Global, err: &mut E, fault: &Fault) -> Status
    ensures told { IsToldOf fault.now result (E.faults err.old) (E.faults err.new) (E.written err.old) (E.written err.new) }
    ensures write_fault { fault.now ≡ Fault.WriteFault → result ≡ Status.WriteFault }
{
    if let Fault::WriteFault = fault {
        tell(err, cannot_write_text().as_bytes());
        return Status::WriteFault;
    }
    match fault_text(alloc, fault) {
        Ok(text) => {
            tell(err, text.bytes());
            status_for(fault)
        }
        Err(Memory) => Status::Memory,
    }
}

/// Runs the command that the words name and writes its text to `out`, and a message to `err` where it is refused. The
/// words don't hold the program's name. An input is standard input, where no name or `-` is given, or else a file.
///
/// `solve` prints an optimal policy; `certify` its certificate; `check` checks a certificate against an instance, whoever
/// wrote it; `demand` prints the laws of demand of a newsvendor, a finite, an average-cost or a serial instance;
/// `simulate` runs a network with the order rules that the caller hands in, which its nodes name by their places from 0,
/// and prints what happens, each period's lines before the next one runs; `trial` makes instances from a number, solves
/// them, checks their certificates and prints what comes out; `help` prints what the commands are. The rules are dropped
/// when the call returns.
pub fn stock<I: Source, F: Files, O: Sink, E: Sink>(
    alloc: Global,
    words: &[String],
    input: &mut I,
    files: &mut F,
    out: &mut O,
    err: &mut E,
    rules: Vec<Box<dyn HouseRule>>,
) -> Status
    // Where the inputs tell what they hold, the status and the text are those of the ending.
    ensures outcome { IfSome (ending_of (I.left input.old) (F.held files.old) words.now (map (λ b. (⟦<dyn HouseRule as HouseRule>⟧ b.vtable).meaning b.value) rules.items)) (λ end. IsDecided result →
        (result ≡ status_of_outcome end) × Appends (O.written out.old) (O.written out.new) (text_of end)) }
    // A run that is cut short wrote a prefix of that text.
    ensures part { IfSome (ending_of (I.left input.old) (F.held files.old) words.now (map (λ b. (⟦<dyn HouseRule as HouseRule>⟧ b.vtable).meaning b.value) rules.items)) (λ end.
        AppendsPrefix (O.written out.old) (O.written out.new) (text_of end)) }

    // Each status has its cause, whatever the inputs tell.
    ensures words { result ≡ Status.Words → IsSome (words_fault words.now) }
    ensures no_command { IsSome (words_fault words.now) → (result ≡ Status.Words) ⊎ (result ≡ Status.Memory) }
    // A read fault is of an input that the run comes to read: of a certificate's only where the instance stands.
    ensures read_fault { result ≡ Status.ReadFault → FailsOne
        (counts_of (I.faults input.old) (I.faults input.new) (F.faults files.old) (F.faults files.new))
        (ReadsInput (I.left input.old) (F.held files.old) words.now (command_of words.now)) }
    ensures write_fault { result ≡ Status.WriteFault → Rose (O.faults out.old) (O.faults out.new) }
    ensures writing { result ≡ Status.WriteFault → IfSome (ending_of (I.left input.old) (F.held files.old) words.now (map (λ b. (⟦<dyn HouseRule as HouseRule>⟧ b.vtable).meaning b.value) rules.items)) IsOk }
    ensures rejects { result ≡ Status.Rejected → IsCheck (command_of words.now) }
    ensures nothing { WritesNothing result → out.new ≡ out.old }

    // What ends with a text ends so, where no object failed and memory is there; `help` takes none.
    ensures complete { IfSome (ending_of (I.left input.old) (F.held files.old) words.now (map (λ b. (⟦<dyn HouseRule as HouseRule>⟧ b.vtable).meaning b.value) rules.items)) (λ end. IsOk end
        → ¬ Rose (I.faults input.old) (I.faults input.new) → ¬ Rose (F.faults files.old) (F.faults files.new)
        → ¬ Rose (O.faults out.old) (O.faults out.new)
        → (result ≡ status_of_outcome end) ⊎ (result ≡ Status.Memory)) }
    ensures help { command_of words.now ≡ Ok Command.Help → (result ≡ Status.Done) ⊎ (result ≡ Status.WriteFault) }

    // Done after `solve`, `certify` and `check` names a policy than which none costs less, and its cost.
    ensures claims { (command : Command) → command_of words.now ≡ Ok command → result ≡ Status.Done → (text : List ℕ)
        × Claims (I.left input.old) (F.held files.old) words.now (map (λ b. (⟦<dyn HouseRule as HouseRule>⟧ b.vtable).meaning b.value) rules.items) text (asked_of command) × Appends (O.written out.old) (O.written out.new) text }
    // Done means that standard input, where it is read, was read to its end.
    ensures end { result ≡ Status.Done → TakesInput (command_of words.now) None → IsAtEnd (I.left input.new) }

    // What the run doesn't come to read stays as it was.
    ensures input_spared { (ReadsInput (I.left input.old) (F.held files.old) words.now (command_of words.now) None → ⊥) →
        input.new ≡ input.old }
    ensures files_spared { ReadsNoFile (ReadsInput (I.left input.old) (F.held files.old) words.now (command_of words.now)) → files.new ≡ files.old }
    // A check takes at most 4,224 bytes of standard input past the lines of its certificate that all pass, or none.
    ensures reach { (command : Command) (about : About) (place : Option ℕ) → command_of words.now ≡ Ok command →
        asked_of command ≡ Asked.Action about (Action.Check place None) → (input.new ≡ input.old) ⊎
        (told_of about).Reaches (contents (I.left input.old) (F.held files.old) words.now place) (I.left input.old) (I.left input.new) }

    // What stands on `err`.
    ensures message { HasMessage result → IsTold
        (counts_of (I.faults input.old) (I.faults input.new) (F.faults files.old) (F.faults files.new))
        (ending_of (I.left input.old) (F.held files.old) words.now (map (λ b. (⟦<dyn HouseRule as HouseRule>⟧ b.vtable).meaning b.value) rules.items))
        (ReadsInput (I.left input.old) (F.held files.old) words.now (command_of words.now)) result
        (E.faults err.old) (E.faults err.new) (E.written err.old) (E.written err.new) }
    ensures silent { (HasMessage result → ⊥) → err.new ≡ err.old }
{
    match perform(alloc, words, input, files) {
        Ok(task) => match perform_task(alloc, &task, rules, out) {
            Ok(()) => status_with(&task),
            Err(fault) => refuse(alloc, err, &fault),
        },
        Err(fault) => refuse(alloc, err, &fault),
    }
}
