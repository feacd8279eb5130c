// The kinds of instance.
ghost use Rattle.std.specs.Prelude.{◌≡◌, find};
ghost use Rattle.std.specs.Str.{bytes_eq};
ghost use Rattle.decision_model.specs.Kind.{kind_word};

/// The kind of an instance.
#[derive(Clone, Copy, Debug, PartialEq, Eq)]
pub enum Kind {
    /// One order before one period of uncertain demand.
    News,
    /// Orders for known demand, with setup costs.
    Lots,
    /// A finite horizon of uncertain demand.
    Finite,
    /// The average cost of a period over any number of periods.
    Average,
    /// A serial system of echelons.
    Serial,
    /// A network that is simulated.
    Network,
}

impl Kind {
    ghost use Rattle.decision_model.specs.Kind.{kind_word, kind_named};

    /// All kinds, in their order.
    pub const ALL: [Kind; 6] = [
        Kind::News,
        Kind::Lots,
        Kind::Finite,
        Kind::Average,
        Kind::Serial,
        Kind::Network,
    ];

    /// The kind's name in instances, certificates and messages.
    pub fn word(self) -> &'static str
        ensures { result.now ≡ kind_word self }
    {
        match self {
            Kind::News => "newsvendor",
            Kind::Lots => "lots",
            Kind::Finite => "finite",
            Kind::Average => "average",
            Kind::Serial => "serial",
            Kind::Network => "network",
        }
    }

    /// The kind of this name, if there is one.
    pub fn named(name: &str) -> Option<Kind>
        ensures { result ≡ kind_named name.now }
    {
        first_named(&Kind::ALL, name)
    }
}

// The first of some kinds that has this name.
fn first_named(kinds: &[Kind], name: &str) -> Option<Kind>
    ensures { result ≡ find (λ kind. bytes_eq (kind_word kind) name.now) kinds.now }
{
    for kind in kinds {
        if kind.word() == name {
            return Some(*kind);
        }
    }
    None
}
