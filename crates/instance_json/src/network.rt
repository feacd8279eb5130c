// The text of a network, whose object `network_json` reads and writes.
use crate::kinds::KindText;
use decision_model::{Kind, Network};
use json_forms::fault::InstanceErr;
use network_json::{check_network, has_network_keys, network_value, read_network};
use serde_json::Value;
use std::alloc::{AllocError, Global};

impl KindText for Network {
    ghost use Rattle.instance_json.specs.Network.{network_text};

    ghost text = { network_text };

    fn has_keys(alloc: Global, object: &Value) -> Result<(), InstanceErr> {
        has_network_keys(alloc, object)
    }

    fn read(alloc: Global, object: &Value) -> Result<Network, InstanceErr> {
        read_network(alloc, object)
    }

    fn rules(&self, alloc: Global) -> Result<(), InstanceErr> {
        check_network(alloc, self)
    }

    fn to_value(&self, alloc: Global) -> Result<Value, AllocError> {
        network_value(alloc, Kind::Network.word(), self)
    }
}
