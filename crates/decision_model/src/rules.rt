// What each kind says of its instances.
ghost use Rattle.std.specs.Prelude.{◌≡◌, ◌↔◌, IsTrue};
ghost use Rattle.decision_model.specs.Rules.{Rules};

use crate::kinds::Kind;

/// The rules of a kind, which its file answers.
pub trait KindRules {
    /// What the rules say of an instance.
    ghost rules: { Self → Rules };

    fn kind(&self) -> Kind
        ensures { result ≡ (rules self.now).kind };

    /// Whether the grid of positions, if there is one, is small enough.
    fn grid_fits(&self) -> bool
        requires { (rules self.now).readable }
        ensures meaning { IsTrue result ↔ (rules self.now).grid }
        ensures exact { result ≡ (rules self.now).grid_test };

    /// Whether the width number, if there is one, is small enough.
    fn width_ok(&self) -> bool
        requires { (rules self.now).regular }
        ensures meaning { IsTrue result ↔ (rules self.now).width }
        ensures exact { result ≡ (rules self.now).width_test };
}
