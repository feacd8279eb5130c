// The text of an average-cost instance.
ghost use Rattle.std.specs.Prelude.{◌≡◌, IsTrue};
ghost use Rattle.decision_model.specs.Average.{IsUnitDemand};
ghost use Rattle.instance_json.specs.Average.{lots_fit};

use crate::fields::{LEAD, Policy, SETUP};
use crate::kinds::KindText;
use decision_model::{Average, Kind, has_demand, is_unit_demand};
use json_forms::fault::{InstanceErr, InstanceFault};
use json_forms::form::{in_range, optional, required};
use json_forms::keys::KeyRow::{Allowed, Needed};
use json_forms::keys::{KeyRow, has_keys};
use json_forms::laws::DemandLaw;
use json_forms::numbers::{Position, RATE};
use json_forms::write_values::{law_value, put_amounts, put_text};
use serde_json::{Map, Value, put};
use std::alloc::{AllocError, Global};

const KEYS: [KeyRow; 9] = [
    Allowed("kind"),
    Allowed("lead"),
    Allowed("setup"),
    Needed("holding"),
    Needed("stockout"),
    Needed("demand"),
    Needed("floor"),
    Needed("cap"),
    Allowed("policy"),
];

// Lots are asked for only where no demand is above 1.
fn lots_fit(average: &Average) -> bool
    ensures value { result ≡ lots_fit average.now }
    ensures meaning { IsTrue result → IsTrue average.now.lots → IsUnitDemand average.now.law }
{
    !average.lots || is_unit_demand(average)
}

impl KindText for Average {
    ghost use Rattle.instance_json.specs.Average.{average_text};

    ghost text = { average_text };

    fn has_keys(alloc: Global, object: &Value) -> Result<(), InstanceErr> {
        has_keys(alloc, object, &KEYS)
    }

    #[tactic(auto, using(json_forms::proofs::Chained::steps), unfolding(crate::specs::Average::average_of))]
    fn read(alloc: Global, object: &Value) -> Result<Average, InstanceErr> {
        let lead = optional(alloc, object, "lead", LEAD, 0)?;
        let setup = optional(alloc, object, "setup", SETUP, 0)?;
        let holding = required(alloc, object, "holding", RATE)?;
        let stockout = required(alloc, object, "stockout", RATE)?;
        let law = required(alloc, object, "demand", DemandLaw)?;
        let floor = required(alloc, object, "floor", Position)?;
        let cap = required(alloc, object, "cap", Position)?;
        in_range(alloc, "cap", floor <= cap)?;
        let lots = optional(alloc, object, "policy", Policy, false)?;
        Ok(Average {
            lead,
            setup,
            holding,
            stockout,
            law,
            floor,
            cap,
            lots,
        })
    }

    fn rules(&self, _alloc: Global) -> Result<(), InstanceErr> {
        if !has_demand(self) {
            return Err(InstanceErr::Bad(InstanceFault::NoDemand));
        }
        if !lots_fit(self) {
            return Err(InstanceErr::Bad(InstanceFault::NotUnitDemand));
        }
        Ok(())
    }

    #[tactic(auto, unfolding(crate::specs::Average::average_data))]
    fn to_value(&self, alloc: Global) -> Result<Value, AllocError> {
        let demand = law_value(alloc, &self.law)?;
        let policy = if self.lots { "rQ" } else { "sS" };
        let mut members = Map::new(alloc);
        put_text(&mut members, alloc, "kind", Kind::Average.word())?;
        put_text(&mut members, alloc, "policy", policy)?;
        put(&mut members, alloc, "demand", demand)?;
        put(&mut members, alloc, "floor", Value::from(self.floor))?;
        put(&mut members, alloc, "cap", Value::from(self.cap))?;
        let amounts = [
            ("lead", u64::from(self.lead)),
            ("setup", self.setup),
            ("holding", self.holding),
            ("stockout", self.stockout),
        ];
        put_amounts(&mut members, alloc, &amounts)?;
        Ok(Value::Object(members))
    }
}
