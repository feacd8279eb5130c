// Pauses of one node and kind, of which no two share a period.
ghost use Rattle.std.specs.Prelude.{◌≡◌, ◌^◌, ◌<◌, length};
ghost use Rattle.std.specs.List.{list_all};
ghost use Rattle.network_model.specs.Pauses.{are_apart, overlapping_span};

use crate::network::Span;

/// The first pause, from 1, that shares node, kind and a period with an earlier one.
pub fn overlapping_span(spans: &[Span]) -> Option<u32>
    requires { length spans.now < 2 ^ 32 }
    ensures { result ≡ overlapping_span spans.now }
{
    for place in 0..spans.len() {
        if !is_apart_from(&spans[..place], &spans[place]) {
            return Some(place as u32 + 1);
        }
    }
    None
}

// Whether a pause shares node, kind and a period with none of some others.
fn is_apart_from(others: &[Span], span: &Span) -> bool
    ensures { result ≡ list_all (are_apart span.now) others.now }
{
    for other in others {
        if !are_apart(span, other) {
            return false;
        }
    }
    true
}

// A span that ends before it begins holds no period, and is apart from all.
fn are_apart(one: &Span, other: &Span) -> bool
    ensures { result ≡ are_apart one.now other.now }
{
    let first_shared = one.from.max(other.from);
    one.what != other.what
        || one.node != other.node
        || one.to < first_shared
        || other.to < first_shared
}
