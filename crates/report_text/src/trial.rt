// The lines of a trial.
ghost use Rattle.std.specs.Prelude.{◌≡◌, ◌++◌, OnOk};
ghost use Rattle.decision_model.specs.Valid.{IsValid};
ghost use Rattle.value_cert.specs.Meaning.{Certifies};
ghost use Rattle.value_cert.specs.Texts.{HasText};
ghost use Rattle.report_text.specs.Trial.{number_line, level_part, line_end, certified_line, run_line, last_line};

use crate::pieces::{push_number, push_numbered};
use crate::reports::push_span;
use decision_model::{Instance, kind};
use fraction128::{Memory, Text};
use value_cert::{Cert, cost_of};

/// Appends the first line, that of the number that the trial is made of.
pub fn push_number_tried(out: &mut Text, number: u32) -> Result<(), Memory>
    ensures { OnOk result (out.new ≡ out.old ++ number_line number) }
{
    push_numbered(out, "trial ", number, "\n")
}

// Appends the level of a newsvendor's certificate.
fn push_level(out: &mut Text, cert: &Cert) -> Result<(), Memory>
    ensures { OnOk result (out.new ≡ out.old ++ level_part cert.now) }
{
    match cert {
        Cert::News(news) => {
            out.push(b" ")?;
            push_number(out, news.q)
        }
        _ => Ok(()),
    }
}

// Appends the span of an average cost, and ends the line.
fn push_end(out: &mut Text, instance: &Instance, cert: &Cert) -> Result<(), Memory>
    requires valid { IsValid instance.now }
    requires certified { Certifies instance.now cert.now }
    ensures { OnOk result (out.new ≡ out.old ++ line_end instance.now cert.now) }
{
    match (instance, cert) {
        (Instance::Average(_), Cert::Average(_)) => {
            out.push(b" ")?;
            push_span(out, instance, cert)
        }
        _ => out.push(b"\n"),
    }
}

/// Appends the line of an instance that is solved: its kind, a newsvendor's level, the cost, and an average cost's span.
pub fn push_certified(out: &mut Text, instance: &Instance, cert: &Cert) -> Result<(), Memory>
    requires valid { IsValid instance.now }
    requires certified { Certifies instance.now cert.now }
    requires has_text { HasText cert.now }
    ensures { OnOk result (out.new ≡ out.old ++ certified_line instance.now cert.now) }
{
    out.push(kind(instance).word().as_bytes())?;
    push_level(out, cert)?;
    out.push(b" ")?;
    cost_of(instance, cert).text_into(out)?;
    push_end(out, instance, cert)
}

/// Appends the line of a network that ran, by the sum of its costs.
pub fn push_run(out: &mut Text, total: u128) -> Result<(), Memory>
    ensures { OnOk result (out.new ≡ out.old ++ run_line total) }
{
    out.push(b"network ")?;
    push_number(out, total)?;
    out.push(b"\n")
}

/// Appends the last line.
pub fn push_last(out: &mut Text) -> Result<(), Memory>
    ensures { OnOk result (out.new ≡ out.old ++ last_line) }
{
    out.push(b"all accepted\n")
}
