// The report of a bracket of an average cost.
ghost use Rattle.std.specs.Prelude.{◌≡◌, ◌≤◌, ◌^◌, ◌++◌, IfOk, OnOk};
ghost use Rattle.decision_model.specs.WideAverage.{IsWideAverage};
ghost use Rattle.value_cert.specs.BracketRules.{IsBracket};
ghost use Rattle.report_text.specs.Average.{pair_line};
ghost use Rattle.report_text.specs.Bracket.{parts_line, bracket_span_line, bracket_report_of};

use crate::average::push_pair;
use bracket_cost::bracket_span;
use decision_model::Average;
use decision_model::limits::PARTS;
use fraction128::{Frac, Memory, Text};
use std::alloc::Global;
use value_cert::BracketCert;

// Appends the line of the pair.
fn push_bracket_pair(out: &mut Text, average: &Average, cert: &BracketCert) -> Result<(), Memory>
    requires wide { IsWideAverage average.now }
    requires bracket { IsBracket average.now cert.now }
    ensures { OnOk result (out.new ≡ out.old ++ pair_line average.now.lots cert.now.low cert.now.high) }
{
    push_pair(out, average.lots, cert.low, cert.high)
}

// Appends the line of a bound in whole parts.
fn push_bound(out: &mut Text, name: &[u8], parts: u128) -> Result<(), Memory>
    requires { parts ≤ 2 ^ 118 }
    ensures { OnOk result (out.new ≡ out.old ++ parts_line name.now parts) }
{
    out.push(name)?;
    Frac::new(parts as i128, PARTS).text_into(out)?;
    out.push(b"\n")
}

// Appends the line of the span.
fn push_bracket_span(out: &mut Text, average: &Average, cert: &BracketCert) -> Result<(), Memory>
    requires wide { IsWideAverage average.now }
    requires bracket { IsBracket average.now cert.now }
    ensures { OnOk result (out.new ≡ out.old ++ bracket_span_line average.now cert.now) }
{
    out.push(b"span ")?;
    bracket_span(average, cert).text_into(out)?;
    out.push(b"\n")
}

/// The report of an average cost on a wide range and a bracket of it: the pair, both bounds and the span.
pub fn bracket_report(alloc: Global, average: &Average, cert: &BracketCert) -> Result<Text, Memory>
    requires wide { IsWideAverage average.now }
    requires bracket { IsBracket average.now cert.now }
    ensures { IfOk result (λ text. text ≡ bracket_report_of average.now cert.now) }
{
    let mut text = Text::new(alloc);
    text.push(b"kind average\n")?;
    push_bracket_pair(&mut text, average, cert)?;
    push_bound(&mut text, b"lower ", cert.lower)?;
    push_bound(&mut text, b"upper ", cert.upper)?;
    push_bracket_span(&mut text, average, cert)?;
    text.push(b"bracketed\n")?;
    Ok(text)
}
