// The text of a finite instance.
ghost use Rattle.std.specs.Prelude.{◌≡◌, [], ◌++◌, IfOk, OnOk};
ghost use Rattle.serde_json.specs.View.{view, members_view};
ghost use Rattle.json_forms.specs.Faults.{Gives};
ghost use Rattle.json_forms.specs.Members.{put_all, listed};
ghost use Rattle.instance_json.specs.Finite.{AreCostRates, finite_costs_of, with_most, finite_to_lead, finite_from_periods};

use crate::fields::{LEAD, SETUP};
use crate::kinds::KindText;
use decision_model::limits::MOST_ORDER;
use decision_model::{Finite, Kind};
use json_forms::discount::Discount;
use json_forms::fault::{InstanceErr, InstanceFault};
use json_forms::form::{given, in_range, optional, required};
use json_forms::keys::KeyRow::{Allowed, Needed};
use json_forms::keys::{KeyRow, has_keys};
use json_forms::laws::DemandLaws;
use json_forms::numbers::{Amount, Cap, PERIODS, Position, RATE, TOTAL};
use json_forms::write_values::{discount_value, laws_value, put_amounts, put_text};
use serde_json::{Map, Value, put};
use std::alloc::{AllocError, Global};

// The greatest order of a period.
const ORDER: Amount = Amount {
    least: 1,
    most: MOST_ORDER,
};

const KEYS: [KeyRow; 15] = [
    Allowed("kind"),
    Needed("periods"),
    Allowed("lead"),
    Allowed("setup"),
    Allowed("unit"),
    Needed("holding"),
    Needed("stockout"),
    Allowed("end_holding"),
    Allowed("end_stockout"),
    Allowed("discount"),
    Allowed("most"),
    Allowed("total"),
    Needed("demand"),
    Needed("cap"),
    Needed("start"),
];

/// The cost rates of a finite horizon.
#[derive(Clone, Copy)]
pub struct FiniteCosts {
    setup: u64,
    unit: u64,
    holding: u64,
    stockout: u64,
    end_holding: u64,
    end_stockout: u64,
}

#[tactic(auto, using(json_forms::proofs::Chained::steps), unfolding(crate::specs::Finite::finite_costs_of))]
fn finite_costs(alloc: Global, object: &Value) -> Result<FiniteCosts, InstanceErr>
    ensures value { Gives result (finite_costs_of (view object.now)) }
    ensures range { IfOk result AreCostRates }
{
    let setup = optional(alloc, object, "setup", SETUP, 0)?;
    let unit = optional(alloc, object, "unit", RATE, 0)?;
    let holding = required(alloc, object, "holding", RATE)?;
    let stockout = required(alloc, object, "stockout", RATE)?;
    let end_holding = optional(alloc, object, "end_holding", RATE, 0)?;
    let end_stockout = optional(alloc, object, "end_stockout", RATE, 0)?;
    Ok(FiniteCosts {
        setup,
        unit,
        holding,
        stockout,
        end_holding,
        end_stockout,
    })
}

// All members of a finite horizon but the greatest order of a period.
fn finite_members(alloc: Global, finite: &Finite) -> Result<Map<String, Value>, AllocError>
    ensures { IfOk result (λ members. members_view members.entries
        ≡ listed (finite_to_lead finite.now ++ finite_from_periods finite.now)) }
{
    let demand = laws_value(alloc, finite.laws.as_slice())?;
    let discount = discount_value(alloc, finite.discount_num, finite.discount_den)?;
    let mut members = Map::new(alloc);
    put_text(&mut members, alloc, "kind", Kind::Finite.word())?;
    put(&mut members, alloc, "demand", demand)?;
    put(&mut members, alloc, "discount", discount)?;
    put(&mut members, alloc, "cap", Value::from(finite.cap))?;
    put(&mut members, alloc, "start", Value::from(finite.start))?;
    let amounts = [
        ("periods", u64::from(finite.periods)),
        ("lead", u64::from(finite.lead)),
        ("setup", finite.setup),
        ("unit", finite.unit),
        ("holding", finite.holding),
        ("stockout", finite.stockout),
        ("end_holding", finite.end_holding),
        ("end_stockout", finite.end_stockout),
    ];
    put_amounts(&mut members, alloc, &amounts)?;
    Ok(members)
}

// Puts the greatest order of a period, if there is one.
fn put_most(
    members: &mut Map<String, Value>,
    alloc: Global,
    most: Option<u64>,
) -> Result<(), AllocError>
    ensures { OnOk result (members_view members.new.entries
        ≡ put_all (with_most most []) (members_view members.old.entries)) }
{
    match most {
        Some(order) => put(members, alloc, "most", Value::from(order)),
        None => Ok(()),
    }
}

impl KindText for Finite {
    ghost use Rattle.instance_json.specs.Finite.{finite_text};

    ghost text = { finite_text };

    fn has_keys(alloc: Global, object: &Value) -> Result<(), InstanceErr> {
        has_keys(alloc, object, &KEYS)
    }

    #[tactic(auto, using(json_forms::proofs::Chained::steps), unfolding(crate::specs::Finite::finite_of))]
    fn read(alloc: Global, object: &Value) -> Result<Finite, InstanceErr> {
        let periods = required(alloc, object, "periods", PERIODS)?;
        let lead = optional(alloc, object, "lead", LEAD, 0)?;
        let costs = finite_costs(alloc, object)?;
        let (discount_num, discount_den) = optional(alloc, object, "discount", Discount, (1, 1))?;
        let most = given(alloc, object, "most", ORDER)?;
        let total = given(alloc, object, "total", TOTAL)?;
        let places = periods as usize + lead as usize;
        let laws = required(alloc, object, "demand", DemandLaws { places, total })?;
        let cap = required(alloc, object, "cap", Cap)?;
        let start = required(alloc, object, "start", Position)?;
        in_range(alloc, "start", start <= cap)?;
        Ok(Finite {
            periods,
            lead,
            setup: costs.setup,
            unit: costs.unit,
            holding: costs.holding,
            stockout: costs.stockout,
            end_holding: costs.end_holding,
            end_stockout: costs.end_stockout,
            discount_num,
            discount_den,
            laws,
            cap,
            start,
            most,
        })
    }

    fn rules(&self, _alloc: Global) -> Result<(), InstanceErr> {
        Ok(())
    }

    #[tactic(auto, unfolding(crate::specs::Finite::finite_data))]
    fn to_value(&self, alloc: Global) -> Result<Value, AllocError> {
        let mut members = finite_members(alloc, self)?;
        put_most(&mut members, alloc, self.most)?;
        Ok(Value::Object(members))
    }
}
