// The heads of certificates.
ghost use Rattle.std.specs.Prelude.{◌≡◌};
ghost use Rattle.value_cert.specs.Headings.{same_kind, plain_heading, heading_of, allows_line};

use crate::line::CertLine;
use decision_model::{Instance, Kind};

/// What the head of a certificate says.
#[derive(Clone, Copy, Debug, PartialEq, Eq)]
pub struct Heading {
    /// The kind of the instance.
    pub kind: Kind,
    /// The discount per period is `num / den`, 1/1 where the kind has none.
    pub num: u32,
    pub den: u32,
}

fn is_same(one: Kind, other: Kind) -> bool
    ensures { result ≡ same_kind one other }
{
    one == other
}

impl Heading {
    // That of a kind which has no discount.
    fn plain(kind: Kind) -> Heading
        ensures { result ≡ plain_heading kind }
    {
        Heading {
            kind,
            num: 1,
            den: 1,
        }
    }

    /// What the head of each certificate for the instance says.
    pub fn of(instance: &Instance) -> Heading
        ensures { result ≡ heading_of instance.now }
    {
        match instance {
            Instance::News(_) => Heading::plain(Kind::News),
            Instance::Lots(_) => Heading::plain(Kind::Lots),
            Instance::Finite(finite) => Heading {
                kind: Kind::Finite,
                num: finite.discount_num,
                den: finite.discount_den,
            },
            Instance::Average(_) => Heading::plain(Kind::Average),
            Instance::Serial(serial) => Heading {
                kind: Kind::Serial,
                num: serial.discount_num,
                den: serial.discount_den,
            },
            Instance::Network(_) => Heading::plain(Kind::Network),
        }
    }

    /// Whether a line is no head, or the head that says this.
    pub fn allows(&self, line: &CertLine) -> bool
        ensures { result ≡ allows_line self.now line.now }
    {
        match *line {
            CertLine::Head(kind, num, den) => {
                is_same(self.kind, kind)
                    && num == i128::from(self.num)
                    && den == i128::from(self.den)
            }
            _ => true,
        }
    }
}
