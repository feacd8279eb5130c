// The text of a newsvendor.
use crate::kinds::KindText;
use decision_model::Kind;
use json_forms::fault::{InstanceErr, InstanceFault};
use json_forms::form::{in_range, required};
use json_forms::keys::KeyRow::{Allowed, Needed};
use json_forms::keys::{KeyRow, has_keys};
use json_forms::laws::DemandLaw;
use json_forms::numbers::RATE;
use json_forms::write_values::{law_value, put_amounts, put_text};
use newsvendor::Newsvendor;
use serde_json::{Map, Value, put};
use std::alloc::{AllocError, Global};

const KEYS: [KeyRow; 4] = [
    Allowed("kind"),
    Needed("holding"),
    Needed("stockout"),
    Needed("demand"),
];

impl KindText for Newsvendor {
    ghost use Rattle.instance_json.specs.News.{news_text};

    ghost text = { news_text };

    fn has_keys(alloc: Global, object: &Value) -> Result<(), InstanceErr> {
        has_keys(alloc, object, &KEYS)
    }

    #[tactic(auto, using(json_forms::proofs::Chained::steps), unfolding(crate::specs::News::news_of))]
    fn read(alloc: Global, object: &Value) -> Result<Newsvendor, InstanceErr> {
        let holding = required(alloc, object, "holding", RATE)?;
        let stockout = required(alloc, object, "stockout", RATE)?;
        in_range(alloc, "stockout", 0 < holding + stockout)?;
        let law = required(alloc, object, "demand", DemandLaw)?;
        Ok(Newsvendor {
            holding,
            stockout,
            law,
        })
    }

    fn rules(&self, _alloc: Global) -> Result<(), InstanceErr> {
        Ok(())
    }

    #[tactic(auto, unfolding(crate::specs::News::news_data))]
    fn to_value(&self, alloc: Global) -> Result<Value, AllocError> {
        let demand = law_value(alloc, &self.law)?;
        let mut members = Map::new(alloc);
        put_text(&mut members, alloc, "kind", Kind::News.word())?;
        put(&mut members, alloc, "demand", demand)?;
        let rates = [("holding", self.holding), ("stockout", self.stockout)];
        put_amounts(&mut members, alloc, &rates)?;
        Ok(Value::Object(members))
    }
}
