// The text of lot sizing.
use crate::kinds::KindText;
use decision_model::limits::{MOST_LOT_DEMAND, MOST_LOT_PERIODS, MOST_LOT_SETUP, MOST_RATE};
use decision_model::{Kind, LotSize, speculative_period};
use json_forms::fault::{InstanceErr, InstanceFault};
use json_forms::form::required;
use json_forms::keys::KeyRow::{Allowed, Needed};
use json_forms::keys::{KeyRow, has_keys};
use json_forms::numbers::{Rates, SomeAmounts, rates_or_zero};
use json_forms::write_values::{amounts_value, put_text};
use serde_json::{Map, Value, put};
use std::alloc::{AllocError, Global};

const KEYS: [KeyRow; 5] = [
    Allowed("kind"),
    Needed("demand"),
    Needed("setup"),
    Needed("holding"),
    Allowed("unit"),
];

impl KindText for LotSize {
    ghost use Rattle.instance_json.specs.Lots.{lots_text};

    ghost text = { lots_text };

    fn has_keys(alloc: Global, object: &Value) -> Result<(), InstanceErr> {
        has_keys(alloc, object, &KEYS)
    }

    #[tactic(auto, using(json_forms::proofs::Chained::steps), unfolding(crate::specs::Lots::lots_of))]
    fn read(alloc: Global, object: &Value) -> Result<LotSize, InstanceErr> {
        let demand = SomeAmounts {
            most_each: MOST_LOT_DEMAND,
            least: 1,
            most: MOST_LOT_PERIODS,
        };
        let demand = required(alloc, object, "demand", demand)?;
        let periods = demand.as_slice().len();
        let setups = Rates {
            most: MOST_LOT_SETUP,
            places: periods,
        };
        let setup = required(alloc, object, "setup", setups)?;
        let rates = Rates {
            most: MOST_RATE,
            places: periods,
        };
        let holding = required(alloc, object, "holding", rates)?;
        let unit = rates_or_zero(alloc, object, "unit", rates)?;
        Ok(LotSize {
            demand,
            setup,
            unit,
            holding,
        })
    }

    fn rules(&self, _alloc: Global) -> Result<(), InstanceErr> {
        match speculative_period(self) {
            Some(period) => Err(InstanceErr::Bad(InstanceFault::Speculative(period))),
            None => Ok(()),
        }
    }

    #[tactic(auto, unfolding(crate::specs::Lots::lots_data))]
    fn to_value(&self, alloc: Global) -> Result<Value, AllocError> {
        let demand = amounts_value(alloc, self.demand.as_slice())?;
        let holding = amounts_value(alloc, self.holding.as_slice())?;
        let setup = amounts_value(alloc, self.setup.as_slice())?;
        let unit = amounts_value(alloc, self.unit.as_slice())?;
        let mut members = Map::new(alloc);
        put_text(&mut members, alloc, "kind", Kind::Lots.word())?;
        put(&mut members, alloc, "demand", demand)?;
        put(&mut members, alloc, "holding", holding)?;
        put(&mut members, alloc, "setup", setup)?;
        put(&mut members, alloc, "unit", unit)?;
        Ok(Value::Object(members))
    }
}
