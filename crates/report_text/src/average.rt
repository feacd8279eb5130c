// The lines of average costs.
ghost use Rattle.std.specs.Prelude.{◌≡◌, ◌≤ℤ◌, ◌<ℤ◌, ◌++◌, ◌+ℤ◌, pos, OnOk};
ghost use Rattle.decision_model.specs.Average.{IsValidAverage};
ghost use Rattle.value_cert.specs.AverageRules.{IsLeastAverage};
ghost use Rattle.report_text.specs.Average.{pair_line, pair_lines, span_line};
ghost use Rattle.report_text.specs.Demand.{demand_text_of};

use crate::periods::push_sum;
use crate::pieces::push_positions;
use average_cost::span;
use decision_model::{Average, Instance};
use fraction128::{Memory, Text};
use std::alloc::Global;
use std::slice;
use value_cert::AverageCert;

// Appends the line of a pair of positions.
pub fn push_pair(out: &mut Text, lots: bool, low: i64, high: i64) -> Result<(), Memory>
    requires below { low ≤ℤ high }
    requires near { high ≤ℤ (low +ℤ pos 4000000) }
    ensures { OnOk result (out.new ≡ out.old ++ pair_line lots low high) }
{
    if lots {
        push_positions(out, "r ", low, " Q ", high - low)
    } else {
        push_positions(out, "s ", low, " S ", high)
    }
}

// Appends the pair of a certificate.
pub fn push_policy(out: &mut Text, average: &Average, cert: &AverageCert) -> Result<(), Memory>
    requires valid { IsValidAverage average.now }
    requires certified { IsLeastAverage average.now cert.now }
    ensures { OnOk result (out.new ≡ out.old ++ pair_lines average.now cert.now) }
{
    out.push(b"kind average\n")?;
    push_pair(out, average.lots, cert.low, cert.high)
}

// Appends the line of its span.
pub fn push_span(out: &mut Text, average: &Average, cert: &AverageCert) -> Result<(), Memory>
    requires valid { IsValidAverage average.now }
    requires certified { IsLeastAverage average.now cert.now }
    ensures { OnOk result (out.new ≡ out.old ++ span_line average.now cert.now) }
{
    out.push(b"span ")?;
    span(average, cert).text_into(out)?;
    out.push(b"\n")
}

// Appends the law of the lead time.
pub fn push_demand(alloc: Global, out: &mut Text, average: &Average) -> Result<(), Memory>
    requires { IsValidAverage average.now }
    ensures { OnOk result (out.new ≡ out.old ++ demand_text_of (Instance.Average average.now)) }
{
    let lead = average.lead as usize;
    push_sum(alloc, out, slice::from_ref(&average.law), 0, lead + 1)
}
