// The command `demand`.
ghost use Rattle.std.specs.Prelude.{◌≡◌, Ok, IfOk, IfErr};
ghost use Rattle.decision_model.specs.Valid.{IsValid};
ghost use Rattle.stock_cli.specs.Causes.{HasNoAnswer};
ghost use Rattle.stock_cli.specs.Endings.{kind_outcome};
ghost use Rattle.stock_cli.specs.Outcome.{output_of, written, AnswerHasText};

use crate::answers::Answer;
use crate::asked::KindQuestion;
use crate::status::Status;
use decision_model::{Instance, kind};
use report_text::{Fault, demand_text, has_laws};
use std::alloc::Global;

/// The laws of demand, for the kinds that have some.
pub fn demand(alloc: Global, instance: &Instance) -> Result<Answer, Fault>
    requires { IsValid instance.now }
    ensures ok { IfOk result (λ answer. kind_outcome KindQuestion.Demand instance.now ≡ Ok (written answer)) }
    ensures done { IfOk result (λ answer. (output_of answer).status ≡ Status.Done) }
    ensures has_text { IfOk result AnswerHasText }
    ensures none { IfErr result (HasNoAnswer (kind_outcome KindQuestion.Demand instance.now)) }
{
    if !has_laws(instance) {
        return Err(Fault::NotThisCommand(kind(instance)));
    }
    let text = demand_text(alloc, instance)?;
    Ok(Answer::Printed(text))
}
