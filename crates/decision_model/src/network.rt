// The network kind, whose instances stand in `network_model`.
use crate::kinds::Kind;
use crate::rules::KindRules;
use network_model::Network;

impl KindRules for Network {
    ghost use Rattle.decision_model.specs.Network.{network_rules};

    ghost rules = { network_rules };

    fn kind(&self) -> Kind {
        Kind::Network
    }

    fn grid_fits(&self) -> bool {
        true
    }

    fn width_ok(&self) -> bool {
        true
    }
}
