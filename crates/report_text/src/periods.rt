// The law of the demand of some periods together, for each period that they may begin with.
ghost use Rattle.std.specs.Prelude.{◌≡◌, ℕ, ◌+◌, ◌<◌, ◌≤◌, ◌^◌, ◌++◌, OnOk, length};
ghost use Rattle.decision_model.specs.LeadTimes.{HasSum};
ghost use Rattle.report_text.specs.Demand.{law_of_periods, period_text, periods_text, numbered_text, same_text};
ghost use Rattle.report_text.specs.Laws.{law_text};

use crate::laws::push_law;
use crate::pieces::push_numbered;
use demand_law::{Law, SumErr, lead_sum};
use fraction128::{Memory, Text};
use std::alloc::Global;

// Appends the law of the demand of `count` periods together, the first of them at a place of the list of laws.
pub fn push_sum(
    alloc: Global,
    out: &mut Text,
    laws: &[Law],
    place: usize,
    count: usize,
) -> Result<(), Memory>
    requires some { 1 ≤ count }
    requires has_sum { HasSum laws.now place count }
    ensures { OnOk result (out.new ≡ out.old ++ law_text (law_of_periods laws.now place count)) }
{
    match lead_sum(alloc, laws, place, count) {
        Ok(law) => push_law(out, &law),
        Err(SumErr::Memory) => Err(Memory),
        Err(SumErr::Width) => unreachable!(),
    }
}

// Appends the line of a period, the first of which is at place 0.
fn push_number_of(out: &mut Text, place: u32) -> Result<(), Memory>
    requires { place + 1 < 2 ^ 32 }
    ensures { OnOk result (out.new ≡ out.old ++ numbered_text (place + 1)) }
{
    push_numbered(out, "period ", place + 1, "\n")
}

// Appends the law of `count` periods under the number of the first of them.
fn push_period(
    alloc: Global,
    out: &mut Text,
    laws: &[Law],
    place: u32,
    count: usize,
) -> Result<(), Memory>
    requires place { place + 1 < 2 ^ 32 }
    requires some { 1 ≤ count }
    requires has_sum { HasSum laws.now place count }
    ensures { OnOk result (out.new ≡ out.old ++ period_text (place + 1) (law_of_periods laws.now place count)) }
{
    push_number_of(out, place)?;
    push_sum(alloc, out, laws, place as usize, count)
}

// Appends the same for each period.
fn push_each(
    alloc: Global,
    out: &mut Text,
    laws: &[Law],
    periods: u32,
    count: usize,
) -> Result<(), Memory>
    requires some { 1 ≤ count }
    requires have_sums { (place : ℕ) → place < periods → HasSum laws.now place count }
    ensures { OnOk result (out.new ≡ out.old ++ periods_text periods (λ place. law_of_periods laws.now place count)) }
{
    for place in 0..periods {
        push_period(alloc, out, laws, place, count)?;
    }
    Ok(())
}

// Appends one text under the number of each period.
fn push_same(out: &mut Text, periods: u32, text: &[u8]) -> Result<(), Memory>
    ensures { OnOk result (out.new ≡ out.old ++ same_text periods text.now) }
{
    for place in 0..periods {
        push_number_of(out, place)?;
        out.push(text)?;
    }
    Ok(())
}

// Appends the law of `count` periods of one law, whose text is made once, under the number of each period.
fn push_only(
    alloc: Global,
    out: &mut Text,
    laws: &[Law],
    periods: u32,
    count: usize,
) -> Result<(), Memory>
    requires some { 1 ≤ count }
    requires only { length laws.now ≡ 1 }
    requires has_sum { HasSum laws.now 0 count }
    ensures { OnOk result (out.new ≡ out.old ++ periods_text periods (λ place. law_of_periods laws.now place count)) }
{
    let mut text = Text::new(alloc);
    push_sum(alloc, &mut text, laws, 0, count)?;
    push_same(out, periods, text.bytes())
}

// Appends the law of `count` periods under the number of each period that they may begin with.
pub fn push_periods(
    alloc: Global,
    out: &mut Text,
    laws: &[Law],
    periods: u32,
    count: usize,
) -> Result<(), Memory>
    requires some { 1 ≤ count }
    requires have_sums { (place : ℕ) → place < periods → HasSum laws.now place count }
    ensures { OnOk result (out.new ≡ out.old ++ periods_text periods (λ place. law_of_periods laws.now place count)) }
{
    if laws.len() == 1 && periods >= 1 {
        push_only(alloc, out, laws, periods, count)
    } else {
        push_each(alloc, out, laws, periods, count)
    }
}
