// The verdict on a whole text.
ghost use Rattle.std.specs.Prelude.{◌≡◌, IfOk};
ghost use Rattle.decision_model.specs.Valid.{IsValid};
ghost use Rattle.value_cert.specs.Breaches.{text_breach};
ghost use Rattle.cert_check.specs.Meaning.{IsCertified, IsOwnText};
ghost use Rattle.line_check.specs.Verdicts.{verdict_of};

use crate::tables::{cells_of, sums_of};
use crate::text_check::TextCheck;
use decision_model::Instance;
use fraction128::Memory;
use line_check::Verdict;
use std::alloc::Global;

/// The verdict on a whole text as a certificate for the instance. It is never `Going`.
pub fn verdict(alloc: Global, instance: &Instance, text: &[u8]) -> Result<Verdict, Memory>
    requires valid { IsValid instance.now }
    ensures exact { IfOk result (λ v. v ≡ verdict_of (text_breach instance.now text.now)) }
    // Whoever wrote what is accepted.
    ensures accepted { IfOk result (λ v. v ≡ Verdict.Accepted → IsCertified instance.now text.now) }
    // What the solver writes is.
    ensures own { IfOk result (λ v. IsOwnText instance.now text.now → v ≡ Verdict.Accepted) }
{
    let Ok(mut cells) = vec![in alloc; 0i128; cells_of(instance)] else {
        return Err(Memory);
    };
    let Ok(mut sums) = vec![in alloc; 0u128; sums_of(instance)] else {
        return Err(Memory);
    };
    let mut check = TextCheck::new(instance, &mut cells, &mut sums);
    check.push(text);
    Ok(check.end())
}
