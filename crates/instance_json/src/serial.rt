// The text of a serial system.
use crate::fields::is_start;
use crate::kinds::KindText;
use decision_model::limits::{MOST_ECHELONS, MOST_RATE};
use decision_model::{Kind, Serial};
use json_forms::discount::Discount;
use json_forms::fault::{InstanceErr, InstanceFault};
use json_forms::form::{given, in_range, optional, required};
use json_forms::keys::KeyRow::{Allowed, Needed};
use json_forms::keys::{KeyRow, has_keys};
use json_forms::laws::DemandLaws;
use json_forms::numbers::{
    Cap, PERIODS, RATE, Rates, SomeAmounts, StartPositions, TOTAL, rates_or_zero,
};
use json_forms::write_values::{
    amounts_value, discount_value, laws_value, positions_value, put_amounts, put_text,
};
use serde_json::{Map, Value, put};
use std::alloc::{AllocError, Global};

const KEYS: [KeyRow; 10] = [
    Allowed("kind"),
    Needed("periods"),
    Needed("holding"),
    Allowed("unit"),
    Needed("stockout"),
    Allowed("discount"),
    Allowed("total"),
    Needed("demand"),
    Needed("cap"),
    Needed("start"),
];

impl KindText for Serial {
    ghost use Rattle.instance_json.specs.Serial.{serial_text};

    ghost text = { serial_text };

    fn has_keys(alloc: Global, object: &Value) -> Result<(), InstanceErr> {
        has_keys(alloc, object, &KEYS)
    }

    #[tactic(auto, using(json_forms::proofs::Chained::steps), unfolding(crate::specs::Serial::serial_of))]
    fn read(alloc: Global, object: &Value) -> Result<Serial, InstanceErr> {
        let periods = required(alloc, object, "periods", PERIODS)?;
        let holding = SomeAmounts {
            most_each: MOST_RATE,
            least: 1,
            most: MOST_ECHELONS,
        };
        let holding = required(alloc, object, "holding", holding)?;
        let echelons = holding.as_slice().len();
        let rates = Rates {
            most: MOST_RATE,
            places: echelons,
        };
        let unit = rates_or_zero(alloc, object, "unit", rates)?;
        let stockout = required(alloc, object, "stockout", RATE)?;
        let (discount_num, discount_den) = optional(alloc, object, "discount", Discount, (1, 1))?;
        let total = given(alloc, object, "total", TOTAL)?;
        let places = periods as usize;
        let laws = required(alloc, object, "demand", DemandLaws { places, total })?;
        let cap = required(alloc, object, "cap", Cap)?;
        let start = required(alloc, object, "start", StartPositions { places: echelons })?;
        in_range(alloc, "start", is_start(cap, start.as_slice()))?;
        Ok(Serial {
            periods,
            holding,
            unit,
            stockout,
            discount_num,
            discount_den,
            laws,
            cap,
            start,
        })
    }

    fn rules(&self, _alloc: Global) -> Result<(), InstanceErr> {
        Ok(())
    }

    #[tactic(auto, unfolding(crate::specs::Serial::serial_data))]
    fn to_value(&self, alloc: Global) -> Result<Value, AllocError> {
        let demand = laws_value(alloc, self.laws.as_slice())?;
        let discount = discount_value(alloc, self.discount_num, self.discount_den)?;
        let holding = amounts_value(alloc, self.holding.as_slice())?;
        let unit = amounts_value(alloc, self.unit.as_slice())?;
        let start = positions_value(alloc, self.start.as_slice())?;
        let mut members = Map::new(alloc);
        put_text(&mut members, alloc, "kind", Kind::Serial.word())?;
        put(&mut members, alloc, "demand", demand)?;
        put(&mut members, alloc, "discount", discount)?;
        put(&mut members, alloc, "holding", holding)?;
        put(&mut members, alloc, "unit", unit)?;
        put(&mut members, alloc, "start", start)?;
        put(&mut members, alloc, "cap", Value::from(self.cap))?;
        let amounts = [
            ("periods", u64::from(self.periods)),
            ("stockout", self.stockout),
        ];
        put_amounts(&mut members, alloc, &amounts)?;
        Ok(Value::Object(members))
    }
}
