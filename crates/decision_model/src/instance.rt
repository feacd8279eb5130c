// Instances of any kind.
ghost use Rattle.std.specs.Prelude.{◌≡◌, ◌↔◌, IsTrue};
ghost use Rattle.decision_model.specs.Kind.{kind_of};
ghost use Rattle.decision_model.specs.Valid.{IsReadable, GridFits, grid_fits, IsRegular, WidthFits, width_fits};

use crate::average::Average;
use crate::finite::Finite;
use crate::kinds::Kind;
use crate::lots::LotSize;
use crate::rules::KindRules;
use crate::serial::Serial;
use network_model::Network;
use newsvendor::Newsvendor;

/// An instance of one of the kinds.
#[derive(Drop)]
pub enum Instance {
    News(Newsvendor),
    Lots(LotSize),
    Finite(Finite),
    Average(Average),
    Serial(Serial),
    Network(Network),
}

// The one dispatch by kind: a body over what an instance holds.
macro_rules! of_any_kind {
    ($instance:expr, $held:ident => $body:expr) => {
        match $instance {
            Instance::News($held) => $body,
            Instance::Lots($held) => $body,
            Instance::Finite($held) => $body,
            Instance::Average($held) => $body,
            Instance::Serial($held) => $body,
            Instance::Network($held) => $body,
        }
    };
}

/// The kind of an instance.
pub fn kind(instance: &Instance) -> Kind
    ensures { result ≡ kind_of instance.now }
{
    of_any_kind!(instance, held => held.kind())
}

/// Whether the grid of an instance is small enough: at most 20,000 positions in the finite kind and 2,000 in the average
/// and serial kinds, and at most 1,000,000 cells of a period, an echelon and a position.
pub fn grid_fits(instance: &Instance) -> bool
    requires { IsReadable instance.now }
    ensures meaning { IsTrue result ↔ GridFits instance.now }
    ensures exact { result ≡ grid_fits instance.now }
{
    of_any_kind!(instance, held => held.grid_fits())
}

/// Whether the width number of an instance is at most 2^120. It is true for the kinds that have none: the newsvendor, lot
/// sizing and networks.
///
/// Where it is true, the fractions that a policy and its certificate are made of have room in 128 bits.
pub fn width_ok(instance: &Instance) -> bool
    requires { IsRegular instance.now }
    ensures meaning { IsTrue result ↔ WidthFits instance.now }
    ensures exact { result ≡ width_fits instance.now }
{
    of_any_kind!(instance, held => held.width_ok())
}
