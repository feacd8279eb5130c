// The lines of certificates.
ghost use Rattle.std.specs.Prelude.{◌≡◌, pos, IsTrue};
ghost use Rattle.value_cert.specs.Grammar.{has_numbers};
ghost use Rattle.value_cert.specs.Tags.{tag_of};

use decision_model::Kind;

/// A line of a certificate, with its numbers as they are written.
#[derive(Clone, Copy, Debug, PartialEq, Eq)]
pub enum CertLine {
    /// The kind of the instance, and its discount per period as a fraction, 1/1 where there is none.
    Head(Kind, i128, i128),
    /// The order-up-to level of a newsvendor.
    Level(i128),
    /// The order of a period and its dual price: what the demand of the period adds to the least cost.
    Order(i128, i128),
    /// The cost.
    Cost(i128),
    /// The period that the lines below are of.
    Period(i128),
    /// A position, the position to order up to there, and the cost from there on.
    Value(i128, i128, i128),
    /// The average cost as a fraction.
    Gain(i128, i128),
    /// The greatest position that orders, and the position that it orders up to.
    Pair(i128, i128),
    /// A position, and its relative values from below and from above.
    Point(i128, i128, i128),
    /// An echelon and its order-up-to level.
    Echelon(i128, i128),
    /// An echelon stock, and the echelon's part of the cost from there on.
    Part(i128, i128),
    /// The end.
    End,
}

/// What a line tells, its numbers aside.
#[derive(Clone, Copy, Debug, PartialEq, Eq)]
pub enum Tag {
    Head,
    Level,
    Order,
    Cost,
    Period,
    Value,
    Gain,
    Pair,
    Point,
    Echelon,
    Part,
    End,
}

impl CertLine {
    /// What the line tells.
    pub fn tag(&self) -> Tag
        ensures { result ≡ tag_of self.now }
    {
        match *self {
            CertLine::Head(_, _, _) => Tag::Head,
            CertLine::Level(_) => Tag::Level,
            CertLine::Order(_, _) => Tag::Order,
            CertLine::Cost(_) => Tag::Cost,
            CertLine::Period(_) => Tag::Period,
            CertLine::Value(_, _, _) => Tag::Value,
            CertLine::Gain(_, _) => Tag::Gain,
            CertLine::Pair(_, _) => Tag::Pair,
            CertLine::Point(_, _, _) => Tag::Point,
            CertLine::Echelon(_, _) => Tag::Echelon,
            CertLine::Part(_, _) => Tag::Part,
            CertLine::End => Tag::End,
        }
    }
}

/// The head of a kind with its discount.
pub(crate) fn head_line(kind: Kind, num: u32, den: u32) -> CertLine
    ensures { result ≡ CertLine.Head kind (pos num) (pos den) }
{
    CertLine::Head(kind, i128::from(num), i128::from(den))
}

/// The line of a cost.
pub(crate) fn cost_line(cost: u128) -> CertLine
    requires { IsTrue (has_numbers (CertLine.Cost (pos cost))) }
    ensures { result ≡ CertLine.Cost (pos cost) }
{
    CertLine::Cost(cost as i128)
}

/// The line of a period.
pub(crate) fn period_line(period: u32) -> CertLine
    ensures { result ≡ CertLine.Period (pos period) }
{
    CertLine::Period(i128::from(period))
}
