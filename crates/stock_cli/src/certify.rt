// The command `certify`.
ghost use Rattle.std.specs.Prelude.{◌≡◌, Ok, IfOk, IfErr};
ghost use Rattle.stock_cli.specs.Causes.{HasNoAnswer};
ghost use Rattle.stock_cli.specs.Endings.{question_outcome};
ghost use Rattle.stock_cli.specs.Outcome.{output_of, written, AnswerHasText};
ghost use Rattle.stock_cli.specs.Subjects.{IsCertificate};

use crate::answers::Answer;
use crate::asked::Question;
use crate::status::Status;
use crate::subject::Subject;
use report_text::Fault;
use std::alloc::Global;

/// The certificate of an optimal policy.
pub fn certify<S: Subject>(alloc: Global, item: &S::Item) -> Result<Answer, Fault>
    requires { S.subject.IsValid item.now }
    ensures ok { IfOk result (λ answer. question_outcome S.subject Question.Certify item.now ≡ Ok (written answer)) }
    ensures certificate { IfOk result (λ answer. IsCertificate S.subject item.now (output_of answer).text) }
    ensures done { IfOk result (λ answer. (output_of answer).status ≡ Status.Done) }
    ensures has_text { IfOk result AnswerHasText }
    ensures none { IfErr result (HasNoAnswer (question_outcome S.subject Question.Certify item.now)) }
{
    S::solvable(item)?;
    let cert = S::solve(alloc, item)?;
    Ok(Answer::Certificate(S::wrap(cert)))
}
