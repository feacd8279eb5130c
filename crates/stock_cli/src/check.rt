// The command `check`.
ghost use Rattle.std.specs.Prelude.{◌≡◌, ◌≤◌, List, ℕ, None, Some, IfOk, IfErr, IfSome, Ok};
ghost use Rattle.std.specs.Io.KnownBytes.{IsAtEnd};
ghost use Rattle.stock_cli.specs.Causes.{counts_of, FailedAt, IsRefused};
ghost use Rattle.stock_cli.specs.Checks.{verdict_told, Reaches};
ghost use Rattle.stock_cli.specs.Endings.{check_ending};
ghost use Rattle.stock_cli.specs.Inputs.{origin_of, content_of};
ghost use Rattle.stock_cli.specs.Outcome.{output_of, written, AnswerHasText};
ghost use Rattle.stock_cli.specs.Status.{IsOfInputs};
ghost use Rattle.stock_cli.specs.Subjects.{HoldsCertificate, IsSolved};

use crate::answers::Answer;
use crate::inputs::Input;
use crate::status::Status;
use crate::subject::Subject;
use cert_check::Verdict;
use fraction128::Memory;
use report_text::{Fault, accepted_text, rejection_text};
use std::alloc::Global;
use stock_edge::{Files, Source};

// The answer of a final verdict.
fn answer_of(alloc: Global, verdict: Verdict) -> Result<Answer, Memory>
    ensures ok { IfOk result (λ answer. output_of answer ≡ verdict_told verdict) }
    ensures has_text { IfOk result AnswerHasText }
{
    if let Verdict::Rejected { line, rule } = verdict {
        let text = rejection_text(alloc, line, rule)?;
        return Ok(Answer::Rejection(text));
    }
    let text = accepted_text(alloc)?;
    Ok(Answer::Printed(text))
}

/// The answer to a check of the certificate of an input against an item. It holds the item, what the check needs and one
/// piece of the certificate, and reads no further than to the first line that is rejected.
pub fn check<S: Subject, I: Source, F: Files>(
    alloc: Global,
    item: &S::Item,
    from: &Input<'_>,
    input: &mut I,
    files: &mut F,
) -> Result<Answer, Fault>
    requires { S.subject.IsValid item.now }
    ensures ok { IfOk result (λ answer. IfSome
        (check_ending S.subject (content_of (I.left input.old) (F.held files.old) (origin_of from.now)) item.now (S.subject.solved item.now))
        (λ end. end ≡ Ok (written answer))) }
    ensures claims { IfOk result (λ answer. (output_of answer).status ≡ Status.Done →
        HoldsCertificate S.subject (content_of (I.left input.old) (F.held files.old) (origin_of from.now)) item.now) }
    ensures has_text { IfOk result AnswerHasText }
    ensures end { IfOk result (λ answer. (output_of answer).status ≡ Status.Done → origin_of from.now ≡ None → IsAtEnd (I.left input.new)) }
    ensures refused { IfErr result (IsRefused
        (λ name. IsSolved S.subject item.now × FailedAt (counts_of (I.faults input.old) (I.faults input.new) (F.faults files.old) (F.faults files.new)) (origin_of from.now) name)
        (check_ending S.subject (content_of (I.left input.old) (F.held files.old) (origin_of from.now)) item.now (S.subject.solved item.now))) }
    ensures of_inputs { IfErr result IsOfInputs }
    ensures reach { origin_of from.now ≡ None → Reaches (S.subject.rules item.now) (I.left input.old) (I.left input.new) }
    ensures later_input { I.faults input.old ≤ I.faults input.new }
    ensures later_files { F.faults files.old ≤ F.faults files.new }
    // Nothing is read where the item isn't checked, nor of what doesn't hold the certificate.
    ensures spared_input { (origin_of from.now ≡ None → IsSolved S.subject item.now → ⊥) → input.new ≡ input.old }
    ensures spared_files { ((name : List ℕ) → origin_of from.now ≡ Some name → IsSolved S.subject item.now → ⊥) → files.new ≡ files.old }
{
    S::solvable(item)?;
    let verdict = S::verdict(alloc, item, from, input, files)?;
    let answer = answer_of(alloc, verdict)?;
    Ok(answer)
}
