// A table of spans in order: by node, kind and period. Each holds a period, and no two of one node and kind share one.
ghost use Rattle.std.specs.Prelude.{◌≡◌, ℕ, ◌<◌, ◌≤◌, length, slice_index_or, true, OnOk, MatchBool};
ghost use Rattle.std.specs.List.{list_all};
ghost use Rattle.network_model.specs.Pauses.{holds, is_paused, are_apart, no_span};
ghost use Rattle.disruption.specs.Tables.{IsTable, Begins, Follows, HasOneMore, rank};

use fraction128::Memory;
use network_model::{Pause, Span};

/// Whether a span of a table holds the period. Only the last of its node and kind that begins at or before the period
/// can.
pub(crate) fn is_held(table: &[Span], what: Pause, node: u32, t: u32) -> bool
    requires { IsTable table.now }
    ensures { result ≡ is_paused table.now what node t }
{
    let begun = count_begun(table, what, node, t);
    begun > 0 && holds(&table[begun - 1], what, node, t)
}

// Whether a span of the kind and node holds the period.
fn holds(span: &Span, what: Pause, node: u32, t: u32) -> bool
    ensures { result ≡ holds what node t span.now }
{
    span.what == what && span.node == node && span.from <= t && t <= span.to
}

/// Puts a span into its place in a table. It holds a period, and shares none with another of its node and kind.
pub(crate) fn put(table: &mut Vec<Span>, span: Span) -> Result<(), Memory>
    requires table { IsTable table.old.items }
    requires whole { span.from ≤ span.to }
    requires apart { list_all (are_apart span) table.old.items ≡ true }
    ensures table { OnOk result (IsTable table.new.items) }
    ensures one_more { OnOk result (HasOneMore span table.old.items table.new.items) }
{
    let place = count_begun(table, span.what, span.node, span.from);
    table.insert(place, span)?;
    Ok(())
}

// How many spans of a table are of an earlier node or kind, or of this one and begin at or before the period.
fn count_begun(table: &[Span], what: Pause, node: u32, t: u32) -> usize
    requires { IsTable table.now }
    ensures within { result ≤ length table.now }
    ensures begun { (i : ℕ) → i < result → Begins node what t (slice_index_or table.now i no_span) }
    ensures rest { (i : ℕ) → result ≤ i → i < length table.now → Follows node what t (slice_index_or table.now i no_span) }
{
    let mut low = 0;
    let mut high = table.len();
    while low < high {
        let middle = low + (high - low) / 2;
        if begins_by(&table[middle], what, node, t) {
            low = middle + 1;
        } else {
            high = middle;
        }
    }
    low
}

fn begins_by(span: &Span, what: Pause, node: u32, t: u32) -> bool
    ensures { MatchBool result (Begins node what t span.now) (Follows node what t span.now) }
{
    if span.node != node {
        return span.node < node;
    }
    let (one, other) = (rank(span.what), rank(what));
    if one != other {
        return one < other;
    }
    span.from <= t
}

// The order of kinds.
fn rank(what: Pause) -> u8
    ensures { result ≡ rank what }
{
    match what {
        Pause::Orders => 0,
        Pause::Shipments => 1,
        Pause::Receipts => 2,
    }
}
