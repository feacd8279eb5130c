// The commands.
ghost use Rattle.std.specs.Prelude.{◌≡◌, ◌⊎◌, ◌≤◌, ℕ, None, Ok, IfOk, IfErr, OnOk, IfSome};
ghost use Rattle.std.specs.declared.option.Option.{Option};
ghost use Rattle.std.specs.Io.KnownBytes.{IsAtEnd};
ghost use Rattle.decision_model.specs.Valid.{IsValid};
ghost use Rattle.stock_cli.specs.Asks.{CanRun, IsActionInput, IsApart, IsCheckAction, IsComparison, IsInputOf, Runs};
ghost use Rattle.stock_cli.specs.Causes.{ActsOn, ComparesInput, ComesTo, ReadsNoFile, counts_of, IsUnread, IsRefused, HasNoAnswer};
ghost use Rattle.stock_cli.specs.Checks.{ReachesFor};
ghost use Rattle.stock_cli.specs.Claims.{QuestionClaims, AskClaims, CompareClaims, ActionClaims, KindPlanClaims, OfContent};
ghost use Rattle.stock_cli.specs.Commands.{asked_ending, PlanClaims};
ghost use Rattle.stock_cli.specs.Endings.{question_outcome, question_ending, compare_ending, action_ending, kind_outcome, kind_ending};
ghost use Rattle.stock_cli.specs.Inputs.{origin_of, content_of, contents};
ghost use Rattle.stock_cli.specs.Outcome.{output_of, written, task_plan, task_status, AnswerHasText, CanBeDone};
ghost use Rattle.stock_cli.specs.Status.{IsOfInputs};
ghost use Rattle.stock_cli.specs.Subjects.{Stands};
ghost use Rattle.stock_cli.specs.Told.{told_of};

use crate::answers::{Answer, Task};
use crate::asked::{About, Asked, KindQuestion, Question};
use crate::brackets::Brackets;
use crate::certify::certify;
use crate::check::check;
use crate::demand::demand;
use crate::inputs::{Input, read_from};
use crate::kinds::Kinds;
use crate::names::Part;
use crate::simulate::simulate;
use crate::solve::solve;
use crate::status::Status;
use crate::subject::Subject;
use crate::trial::trial;
use crate::words::Action;
use decision_model::Instance;
use report_text::Fault;
use std::alloc::Global;
use stock_edge::{Files, Source};

// The answer to a question on an item.
fn answer_on<S: Subject>(alloc: Global, question: Question, item: &S::Item) -> Result<Answer, Fault>
    requires { S.subject.IsValid item.now }
    ensures ok { IfOk result (λ answer. question_outcome S.subject question item.now ≡ Ok (written answer)) }
    ensures claims { IfOk result (λ answer. QuestionClaims S.subject question (output_of answer).text item.now) }
    ensures done { IfOk result (λ answer. (output_of answer).status ≡ Status.Done) }
    ensures has_text { IfOk result AnswerHasText }
    ensures none { IfErr result (HasNoAnswer (question_outcome S.subject question item.now)) }
    ensures of_inputs { IfErr result IsOfInputs }
{
    match question {
        Question::Solve => solve::<S>(alloc, item),
        Question::Certify => certify::<S>(alloc, item),
    }
}

// The answer to a question on the item of an input.
fn ask<S: Subject, I: Source, F: Files>(
    alloc: Global,
    question: Question,
    from: &Input<'_>,
    input: &mut I,
    files: &mut F,
) -> Result<Answer, Fault>
    ensures ok { IfOk result (λ answer. IfSome (question_ending S.subject question (content_of (I.left input.old) (F.held files.old) (origin_of from.now))) (λ end. end ≡ Ok (written answer))) }
    ensures claims { IfOk result (λ answer. AskClaims S.subject question (content_of (I.left input.old) (F.held files.old) (origin_of from.now)) (output_of answer).text) }
    ensures done { IfOk result (λ answer. (output_of answer).status ≡ Status.Done) }
    ensures has_text { IfOk result AnswerHasText }
    ensures end { OnOk result (origin_of from.now ≡ None → IsAtEnd (I.left input.new)) }
    ensures refused { IfErr result (IsRefused
        (IsUnread (counts_of (I.faults input.old) (I.faults input.new) (F.faults files.old) (F.faults files.new)) (λ read. read ≡ origin_of from.now))
        (question_ending S.subject question (content_of (I.left input.old) (F.held files.old) (origin_of from.now)))) }
    ensures of_inputs { IfErr result IsOfInputs }
    ensures later_input { I.faults input.old ≤ I.faults input.new }
    ensures later_files { F.faults files.old ≤ F.faults files.new }
    ensures spared_input { (None ≡ origin_of from.now → ⊥) → input.new ≡ input.old }
    ensures spared_files { ReadsNoFile (λ read. read ≡ origin_of from.now) → files.new ≡ files.old }
{
    let item = read_from::<S, I, F>(alloc, from, input, files)?;
    answer_on::<S>(alloc, question, &item)
}

// The answer to a check of a certificate against an item, one of them in a file. The certificate is read where the item
// stands.
fn compare<S: Subject, I: Source, F: Files>(
    alloc: Global,
    from: &Input<'_>,
    cert: &Input<'_>,
    input: &mut I,
    files: &mut F,
) -> Result<Answer, Fault>
    requires { origin_of from.now ≡ None → origin_of cert.now ≡ None → ⊥ }
    ensures ok { IfOk result (λ answer. IfSome (compare_ending S.subject
        (content_of (I.left input.old) (F.held files.old) (origin_of from.now))
        (content_of (I.left input.old) (F.held files.old) (origin_of cert.now)))
        (λ end. end ≡ Ok (written answer))) }
    ensures claims { IfOk result (λ answer. (output_of answer).status ≡ Status.Done → CompareClaims S.subject
        (content_of (I.left input.old) (F.held files.old) (origin_of from.now))
        (content_of (I.left input.old) (F.held files.old) (origin_of cert.now))) }
    ensures has_text { IfOk result AnswerHasText }
    ensures end_item { OnOk result (origin_of from.now ≡ None → IsAtEnd (I.left input.new)) }
    ensures end_cert { IfOk result (λ answer. (output_of answer).status ≡ Status.Done → origin_of cert.now ≡ None → IsAtEnd (I.left input.new)) }
    ensures refused { IfErr result (IsRefused
        (IsUnread (counts_of (I.faults input.old) (I.faults input.new) (F.faults files.old) (F.faults files.new))
        (ComparesInput (Stands S.subject) (content_of (I.left input.old) (F.held files.old) (origin_of from.now)) (origin_of from.now) (origin_of cert.now)))
        (compare_ending S.subject
        (content_of (I.left input.old) (F.held files.old) (origin_of from.now))
        (content_of (I.left input.old) (F.held files.old) (origin_of cert.now)))) }
    ensures of_inputs { IfErr result IsOfInputs }
    ensures later_input { I.faults input.old ≤ I.faults input.new }
    ensures later_files { F.faults files.old ≤ F.faults files.new }
    ensures spared_input { (ComparesInput (Stands S.subject) (content_of (I.left input.old) (F.held files.old) (origin_of from.now)) (origin_of from.now) (origin_of cert.now) None → ⊥) → input.new ≡ input.old }
    ensures spared_files { ReadsNoFile (ComparesInput (Stands S.subject) (content_of (I.left input.old) (F.held files.old) (origin_of from.now)) (origin_of from.now) (origin_of cert.now)) → files.new ≡ files.old }
    ensures reach { origin_of cert.now ≡ None → (input.new ≡ input.old) ⊎
        ReachesFor S.subject (content_of (I.left input.old) (F.held files.old) (origin_of from.now)) (I.left input.old) (I.left input.new) }
{
    let item = read_from::<S, I, F>(alloc, from, input, files)?;
    check::<S, I, F>(alloc, &item, cert, input, files)
}

// The answer to an action on what a subject reads.
fn act<S: Subject, I: Source, F: Files>(
    alloc: Global,
    words: &[String],
    action: Action,
    input: &mut I,
    files: &mut F,
) -> Result<Answer, Fault>
    requires { IsApart action }
    ensures ok { IfOk result (λ answer. IfSome (action_ending S.subject (contents (I.left input.old) (F.held files.old) words.now) action) (λ end. end ≡ Ok (written answer))) }
    ensures claims { IfOk result (λ answer. (output_of answer).status ≡ Status.Done →
        ActionClaims S.subject (contents (I.left input.old) (F.held files.old) words.now) action (output_of answer).text) }
    ensures has_text { IfOk result AnswerHasText }
    ensures end { IfOk result (λ answer. (output_of answer).status ≡ Status.Done → IsActionInput action None → IsAtEnd (I.left input.new)) }
    ensures rejects { IfOk result (λ answer. (output_of answer).status ≡ Status.Rejected → IsCheckAction action) }
    ensures refused { IfErr result (IsRefused
        (IsUnread (counts_of (I.faults input.old) (I.faults input.new) (F.faults files.old) (F.faults files.new)) (ActsOn (Stands S.subject) (I.left input.old) (F.held files.old) words.now action))
        (action_ending S.subject (contents (I.left input.old) (F.held files.old) words.now) action)) }
    ensures of_inputs { IfErr result IsOfInputs }
    ensures later_input { I.faults input.old ≤ I.faults input.new }
    ensures later_files { F.faults files.old ≤ F.faults files.new }
    ensures spared_input { (ActsOn (Stands S.subject) (I.left input.old) (F.held files.old) words.now action None → ⊥) → input.new ≡ input.old }
    ensures spared_files { ReadsNoFile (ActsOn (Stands S.subject) (I.left input.old) (F.held files.old) words.now action) → files.new ≡ files.old }
    ensures reach { (place : Option ℕ) → action ≡ Action.Check place None → (input.new ≡ input.old) ⊎
        ReachesFor S.subject (contents (I.left input.old) (F.held files.old) words.now place) (I.left input.old) (I.left input.new) }
{
    match action {
        Action::Solve(place) => {
            ask::<S, I, F>(
                alloc,
                Question::Solve,
                &Input::named(words, place),
                input,
                files,
            )
        }
        Action::Certify(place) => {
            ask::<S, I, F>(
                alloc,
                Question::Certify,
                &Input::named(words, place),
                input,
                files,
            )
        }
        Action::Check(place, cert) => {
            let from = Input::named(words, place);
            let cert = Input::named(words, cert);
            compare::<S, I, F>(alloc, &from, &cert, input, files)
        }
    }
}

// The answer to an action on what it is about. Here alone is told apart what that is.
fn act_on<I: Source, F: Files>(
    alloc: Global,
    words: &[String],
    about: About,
    action: Action,
    input: &mut I,
    files: &mut F,
) -> Result<Answer, Fault>
    requires runs { Runs about }
    requires apart { IsApart action }
    ensures ok { IfOk result (λ answer. IfSome ((told_of about).ending (contents (I.left input.old) (F.held files.old) words.now) action) (λ end. end ≡ Ok (written answer))) }
    ensures claims { IfOk result (λ answer. (output_of answer).status ≡ Status.Done →
        (told_of about).Claims (contents (I.left input.old) (F.held files.old) words.now) action (output_of answer).text) }
    ensures has_text { IfOk result AnswerHasText }
    ensures end { IfOk result (λ answer. (output_of answer).status ≡ Status.Done → IsActionInput action None → IsAtEnd (I.left input.new)) }
    ensures rejects { IfOk result (λ answer. (output_of answer).status ≡ Status.Rejected → IsCheckAction action) }
    ensures refused { IfErr result (IsRefused
        (IsUnread (counts_of (I.faults input.old) (I.faults input.new) (F.faults files.old) (F.faults files.new)) (ActsOn (told_of about).Stands (I.left input.old) (F.held files.old) words.now action))
        ((told_of about).ending (contents (I.left input.old) (F.held files.old) words.now) action)) }
    ensures of_inputs { IfErr result IsOfInputs }
    ensures later_input { I.faults input.old ≤ I.faults input.new }
    ensures later_files { F.faults files.old ≤ F.faults files.new }
    ensures spared_input { (ActsOn (told_of about).Stands (I.left input.old) (F.held files.old) words.now action None → ⊥) → input.new ≡ input.old }
    ensures spared_files { ReadsNoFile (ActsOn (told_of about).Stands (I.left input.old) (F.held files.old) words.now action) → files.new ≡ files.old }
    ensures reach { (place : Option ℕ) → action ≡ Action.Check place None → (input.new ≡ input.old) ⊎
        (told_of about).Reaches (contents (I.left input.old) (F.held files.old) words.now place) (I.left input.old) (I.left input.new) }
{
    match about {
        About::Kinds => act::<Kinds, I, F>(alloc, words, action, input, files),
        About::Part(Part::Bracket) => act::<Brackets, I, F>(alloc, words, action, input, files),
        About::Part(Part::Pipeline) => unreachable!(),
        About::Part(Part::Service) => unreachable!(),
        About::Part(Part::Pairs) => unreachable!(),
    }
}

// What is left to do for a further question on an instance.
fn task_on(alloc: Global, question: KindQuestion, instance: Instance) -> Result<Task, Fault>
    requires { IsValid instance }
    ensures ok { IfOk result (λ task. kind_outcome question instance ≡ Ok (task_plan task)) }
    ensures claims { IfOk result (λ task. KindPlanClaims question (task_plan task) instance) }
    ensures done { IfOk result (λ task. task_status task ≡ Status.Done) }
    ensures can { IfOk result CanBeDone }
    ensures none { IfErr result (HasNoAnswer (kind_outcome question instance)) }
    ensures of_inputs { IfErr result IsOfInputs }
{
    match question {
        KindQuestion::Demand => Ok(Task::Write(demand(alloc, &instance)?)),
        KindQuestion::Simulate => Ok(Task::Run(simulate(instance)?)),
    }
}

// What is left to do for a further question on the instance of an input.
fn ask_kind<I: Source, F: Files>(
    alloc: Global,
    question: KindQuestion,
    from: &Input<'_>,
    input: &mut I,
    files: &mut F,
) -> Result<Task, Fault>
    ensures ok { IfOk result (λ task. IfSome (kind_ending question (content_of (I.left input.old) (F.held files.old) (origin_of from.now))) (λ end. end ≡ Ok (task_plan task))) }
    ensures claims { IfOk result (λ task. OfContent (content_of (I.left input.old) (F.held files.old) (origin_of from.now)) (KindPlanClaims question (task_plan task))) }
    ensures done { IfOk result (λ task. task_status task ≡ Status.Done) }
    ensures can { IfOk result CanBeDone }
    ensures end { OnOk result (origin_of from.now ≡ None → IsAtEnd (I.left input.new)) }
    ensures refused { IfErr result (IsRefused
        (IsUnread (counts_of (I.faults input.old) (I.faults input.new) (F.faults files.old) (F.faults files.new)) (λ read. read ≡ origin_of from.now))
        (kind_ending question (content_of (I.left input.old) (F.held files.old) (origin_of from.now)))) }
    ensures of_inputs { IfErr result IsOfInputs }
    ensures later_input { I.faults input.old ≤ I.faults input.new }
    ensures later_files { F.faults files.old ≤ F.faults files.new }
    ensures spared_input { (None ≡ origin_of from.now → ⊥) → input.new ≡ input.old }
    ensures spared_files { ReadsNoFile (λ read. read ≡ origin_of from.now) → files.new ≡ files.old }
{
    let instance = read_from::<Kinds, I, F>(alloc, from, input, files)?;
    task_on(alloc, question, instance)
}

/// What is left to do for what is asked, once the inputs are read; nothing is written before.
pub fn task_of<I: Source, F: Files>(
    alloc: Global,
    words: &[String],
    asked: Asked,
    input: &mut I,
    files: &mut F,
) -> Result<Task, Fault>
    requires { CanRun asked }
    ensures ok { IfOk result (λ task. IfSome
        (asked_ending (I.left input.old) (F.held files.old) words.now asked) (λ end. end ≡ Ok (task_plan task))) }
    ensures claims { IfOk result (λ task. task_status task ≡ Status.Done →
        PlanClaims (I.left input.old) (F.held files.old) words.now (task_plan task) asked) }
    ensures can { IfOk result CanBeDone }
    ensures end { IfOk result (λ task. task_status task ≡ Status.Done → IsInputOf asked None → IsAtEnd (I.left input.new)) }
    ensures rejects { IfOk result (λ task. task_status task ≡ Status.Rejected → IsComparison asked) }
    ensures help { asked ≡ Asked.Nothing → result ≡ Ok (Task.Write Answer.Help) }
    ensures refused { IfErr result (IsRefused
        (IsUnread (counts_of (I.faults input.old) (I.faults input.new) (F.faults files.old) (F.faults files.new))
        (ComesTo (I.left input.old) (F.held files.old) words.now asked))
        (asked_ending (I.left input.old) (F.held files.old) words.now asked)) }
    ensures of_inputs { IfErr result IsOfInputs }
    ensures later_input { I.faults input.old ≤ I.faults input.new }
    ensures later_files { F.faults files.old ≤ F.faults files.new }
    ensures spared_input { (ComesTo (I.left input.old) (F.held files.old) words.now asked None → ⊥) → input.new ≡ input.old }
    ensures spared_files { ReadsNoFile (ComesTo (I.left input.old) (F.held files.old) words.now asked) → files.new ≡ files.old }
    ensures reach { (about : About) (place : Option ℕ) → asked ≡ Asked.Action about (Action.Check place None) → (input.new ≡ input.old) ⊎
        (told_of about).Reaches (contents (I.left input.old) (F.held files.old) words.now place) (I.left input.old) (I.left input.new) }
{
    match asked {
        Asked::Action(about, action) => {
            Ok(Task::Write(act_on(alloc, words, about, action, input, files)?))
        }
        Asked::Kind(question, place) => {
            ask_kind(alloc, question, &Input::named(words, place), input, files)
        }
        Asked::Number(number) => {
            let text = trial(alloc, number)?;
            Ok(Task::Write(Answer::Printed(text)))
        }
        Asked::Nothing => Ok(Task::Write(Answer::Help)),
    }
}
