// What `solve` prints.
ghost use Rattle.std.specs.Prelude.{◌≡◌, ◌++◌, OnOk, IfOk};
ghost use Rattle.fraction128.specs.Printed.{frac_text};
ghost use Rattle.decision_model.specs.Valid.{IsValid};
ghost use Rattle.value_cert.specs.Meaning.{Certifies};
ghost use Rattle.value_cert.specs.Texts.{HasText};
ghost use Rattle.report_text.specs.Reports.{cost_line, policy_lines, span_lines, report_of};

use crate::{average, finite, lots, news, serial};
use decision_model::Instance;
use fraction128::{Frac, Memory, Text};
use std::alloc::Global;
use value_cert::{Cert, cost_of};

// Appends the line of a cost.
fn push_cost(out: &mut Text, cost: &Frac) -> Result<(), Memory>
    ensures { OnOk result (out.new ≡ out.old ++ cost_line (frac_text cost.now.num cost.now.den)) }
{
    out.push(b"cost ")?;
    cost.text_into(out)?;
    out.push(b"\n")
}

// Appends the policy of a certificate.
fn push_policy(out: &mut Text, instance: &Instance, cert: &Cert) -> Result<(), Memory>
    requires valid { IsValid instance.now }
    requires certified { Certifies instance.now cert.now }
    ensures { OnOk result (out.new ≡ out.old ++ policy_lines instance.now cert.now) }
{
    match (instance, cert) {
        (_, Cert::News(cert)) => news::push_policy(out, cert),
        (_, Cert::Lots(cert)) => lots::push_policy(out, cert),
        (_, Cert::Finite(cert)) => finite::push_policy(out, cert),
        (Instance::Average(average), Cert::Average(cert)) => {
            average::push_policy(out, average, cert)
        }
        (_, Cert::Average(_)) => Ok(()),
        (_, Cert::Serial(cert)) => serial::push_policy(out, cert),
    }
}

/// Appends the span of a certificate, where its cost is an average.
pub fn push_span(out: &mut Text, instance: &Instance, cert: &Cert) -> Result<(), Memory>
    requires valid { IsValid instance.now }
    requires certified { Certifies instance.now cert.now }
    ensures { OnOk result (out.new ≡ out.old ++ span_lines instance.now cert.now) }
{
    match (instance, cert) {
        (Instance::Average(average), Cert::Average(cert)) => {
            average::push_span(out, average, cert)
        }
        _ => Ok(()),
    }
}

/// The report of an instance and a certificate for it: the policy, its cost, and the span of an average cost.
pub fn report(alloc: Global, instance: &Instance, cert: &Cert) -> Result<Text, Memory>
    requires valid { IsValid instance.now }
    requires certified { Certifies instance.now cert.now }
    requires has_text { HasText cert.now }
    ensures { IfOk result (λ text. text ≡ report_of instance.now cert.now) }
{
    let mut text = Text::new(alloc);
    push_policy(&mut text, instance, cert)?;
    push_cost(&mut text, &cost_of(instance, cert))?;
    push_span(&mut text, instance, cert)?;
    text.push(b"optimal\n")?;
    Ok(text)
}
