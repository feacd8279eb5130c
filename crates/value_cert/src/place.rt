// Where a line stands in a certificate.
ghost use Rattle.std.specs.Prelude.{◌≡◌};
ghost use Rattle.value_cert.specs.Grammar.{has_numbers, first_place, next_place, step_of, is_ended};

use crate::kinds::{follows, may_have_discount};
use crate::line::{CertLine, Tag};
use crate::numbers::{is_natural_number, is_whole_number};
use decision_model::Kind;

/// What the lines so far say of the next one.
#[derive(Clone, Copy, Debug, PartialEq, Eq)]
pub enum Place {
    /// No line stands so far.
    Start,
    /// The last line of a certificate of this kind told this.
    Behind(Kind, Tag),
}

// Whether each number of a line may stand there.
fn has_valid_numbers(line: &CertLine) -> bool
    ensures { result ≡ has_numbers line.now }
{
    match *line {
        CertLine::Head(kind, num, den) => may_have_discount(kind, num, den),
        CertLine::Level(level) => is_natural_number(level),
        CertLine::Order(order, dual) => is_natural_number(order) && is_natural_number(dual),
        CertLine::Cost(cost) => is_natural_number(cost),
        CertLine::Period(period) => is_natural_number(period),
        CertLine::Value(at, to, value) => {
            is_whole_number(at) && is_whole_number(to) && is_natural_number(value)
        }
        CertLine::Gain(num, den) => is_natural_number(num) && is_natural_number(den),
        CertLine::Pair(low, high) => is_whole_number(low) && is_whole_number(high),
        CertLine::Point(at, lower, upper) => {
            is_whole_number(at) && is_natural_number(lower) && is_natural_number(upper)
        }
        CertLine::Echelon(echelon, level) => is_natural_number(echelon) && is_whole_number(level),
        CertLine::Part(at, value) => is_whole_number(at) && is_whole_number(value),
        CertLine::End => true,
    }
}

// The place behind a first line.
fn behind_first(line: &CertLine) -> Option<Place>
    ensures { result ≡ first_place line.now }
{
    match *line {
        CertLine::Head(kind, _, _) => Some(Place::Behind(kind, Tag::Head)),
        _ => None,
    }
}

// The place behind a line that stands behind one that told this.
fn behind_other(kind: Kind, last: Tag, line: &CertLine) -> Option<Place>
    ensures { result ≡ next_place (Place.Behind kind last) line.now }
{
    let tag = line.tag();
    if follows(kind, last, tag) {
        Some(Place::Behind(kind, tag))
    } else {
        None
    }
}

// The place behind a line that may stand at this place, its numbers aside.
fn place_behind(place: Place, line: &CertLine) -> Option<Place>
    ensures { result ≡ next_place place line.now }
{
    match place {
        Place::Start => behind_first(line),
        Place::Behind(kind, last) => behind_other(kind, last, line),
    }
}

impl Place {
    /// The place behind a line that stands at this place, or `None` where it may not stand here or a number of it may not.
    pub fn after(self, line: &CertLine) -> Option<Place>
        ensures { result ≡ step_of self line.now }
    {
        if has_valid_numbers(line) {
            place_behind(self, line)
        } else {
            None
        }
    }

    /// Whether the certificate has ended.
    pub fn has_ended(self) -> bool
        ensures { result ≡ is_ended self }
    {
        matches!(self, Place::Behind(_, Tag::End))
    }
}
