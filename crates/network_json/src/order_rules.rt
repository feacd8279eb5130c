// The rules by which nodes order.
ghost use Rattle.std.specs.Prelude.{◌≡◌, ◌≤◌, map, codes, IfOk};
ghost use Rattle.std.specs.List.{list_all};
ghost use Rattle.serde_json.specs.View.{view};
ghost use Rattle.serde_json.specs.Find.{get};
ghost use Rattle.model_terms.specs.Positions.{IsPosition};
ghost use Rattle.network_model.specs.Nodes.{IsReadableRule};
ghost use Rattle.network_json.specs.Sources.{is_number, amount_under};
ghost use Rattle.network_json.specs.OrderRules.{has_numbers, position_under, base_in, min_max_in, lot_in, echelon_in, house_in, rule_in};

use crate::sources::{amount_under, is_number};
use json_forms::fault::{FieldErr, FieldFault};
use json_forms::form::Form;
use json_forms::law_texts::count_keys;
use json_forms::numbers::position_of;
use network_model::Rule;
use network_model::limits::{MOST_HOUSE_CAP, MOST_HOUSE_INDEX, MOST_LOT};
use serde_json::Value;
use std::alloc::Global;

fn are_numbers(object: &Value, names: &[&str]) -> bool
    ensures { result ≡ list_all (λ name. is_number (get name (view object.now))) (map (λ name. name.now) names.now) }
{
    for name in names {
        if !is_number(object, name) {
            return false;
        }
    }
    true
}

// A whole number under each of these keys, and no other key.
fn has_numbers(object: &Value, names: &[&str]) -> bool
    ensures { result ≡ has_numbers (map (λ name. name.now) names.now) (view object.now) }
{
    are_numbers(object, names) && count_keys(object) == names.len()
}

fn position_under(object: &Value, name: &str) -> Result<i64, FieldFault>
    ensures value { result ≡ position_under (get name.now (view object.now)) }
    ensures range { IfOk result IsPosition }
{
    match object.get(name) {
        Some(value) => position_of(value),
        None => Err(FieldFault::WrongType),
    }
}

fn base(object: &Value) -> Result<Rule, FieldFault>
    ensures value { result ≡ base_in (view object.now) }
    ensures range { IfOk result IsReadableRule }
{
    let level = position_under(object, "base")?;
    Ok(Rule::Base { level })
}

fn min_max(object: &Value) -> Result<Rule, FieldFault>
    ensures value { result ≡ min_max_in (view object.now) }
    ensures range { IfOk result IsReadableRule }
{
    let low = position_under(object, "min")?;
    let high = position_under(object, "max")?;
    if low < high {
        return Ok(Rule::MinMax { low, high });
    }
    Err(FieldFault::OutOfRange)
}

fn lot(object: &Value) -> Result<Rule, FieldFault>
    ensures value { result ≡ lot_in (view object.now) }
    ensures range { IfOk result IsReadableRule }
{
    let reorder = position_under(object, "reorder")?;
    let lot = amount_under(object, "lot", 1, MOST_LOT)?;
    Ok(Rule::Lot { reorder, lot })
}

fn echelon(object: &Value) -> Result<Rule, FieldFault>
    ensures value { result ≡ echelon_in (view object.now) }
    ensures range { IfOk result IsReadableRule }
{
    let level = position_under(object, "echelon")?;
    Ok(Rule::Echelon { level })
}

fn house(object: &Value) -> Result<Rule, FieldFault>
    ensures value { result ≡ house_in (view object.now) }
    ensures range { IfOk result IsReadableRule }
{
    let index = amount_under(object, "house", 0, u64::from(MOST_HOUSE_INDEX))?;
    let cap = amount_under(object, "cap", 0, MOST_HOUSE_CAP)?;
    Ok(Rule::House {
        index: index as u32,
        cap,
    })
}

// A rule, by its keys.
fn rule(object: &Value) -> Result<Rule, FieldFault>
    ensures value { result ≡ rule_in (view object.now) }
    ensures range { IfOk result IsReadableRule }
{
    if has_numbers(object, &["base"]) {
        return base(object);
    }
    if has_numbers(object, &["min", "max"]) {
        return min_max(object);
    }
    if has_numbers(object, &["reorder", "lot"]) {
        return lot(object);
    }
    if has_numbers(object, &["echelon"]) {
        return echelon(object);
    }
    if has_numbers(object, &["house", "cap"]) {
        return house(object);
    }
    Err(FieldFault::WrongType)
}

/// How a node orders.
#[derive(Clone, Copy)]
pub struct OrderRule;

impl Form for OrderRule {
    ghost use Rattle.std.specs.Prelude.{⊤};

    type Out = Rule;

    ghost reading = { λ _. rule_in };

    ghost ready = { λ _. ⊤ };

    ghost holds = { λ _. IsReadableRule };

    fn read(&self, _alloc: Global, value: &Value) -> Result<Rule, FieldErr> {
        let rule = rule(value)?;
        Ok(rule)
    }
}
