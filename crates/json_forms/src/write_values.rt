// JSON values for the parts of an instance.
ghost use Rattle.std.specs.Prelude.{◌≡◌, map, IfOk, OnOk};
ghost use Rattle.serde_json.specs.Data.{string, put as with_member};
ghost use Rattle.serde_json.specs.View.{view, members_view};
ghost use Rattle.json_forms.specs.Members.{put_all};
ghost use Rattle.json_forms.specs.WrittenValues.{amount_data, amounts_data, positions_data, pair_data, points_from, point_data, law_data, laws_data};

use demand_law::Law;
use serde_json::{Map, Value, json, put};
use std::alloc::{AllocError, Global};

pub fn amounts_value(alloc: Global, list: &[u64]) -> Result<Value, AllocError>
    ensures { IfOk result (λ v. view v ≡ amounts_data list.now) }
{
    let mut values = Vec::new(alloc);
    for amount in list {
        values.push(Value::from(*amount))?;
    }
    Ok(Value::Array(values))
}

pub fn positions_value(alloc: Global, list: &[i64]) -> Result<Value, AllocError>
    ensures { IfOk result (λ v. view v ≡ positions_data list.now) }
{
    let mut values = Vec::new(alloc);
    for position in list {
        values.push(Value::from(*position))?;
    }
    Ok(Value::Array(values))
}

// A list of two numbers.
fn pair_value(alloc: Global, first: u64, second: u64) -> Result<Value, AllocError>
    ensures { IfOk result (λ v. view v ≡ pair_data first second) }
{
    json!(in alloc; [first, second])
}

// The list of a fraction's numerator and denominator.
pub fn discount_value(alloc: Global, num: u32, den: u32) -> Result<Value, AllocError>
    ensures { IfOk result (λ v. view v ≡ pair_data num den) }
{
    pair_value(alloc, u64::from(num), u64::from(den))
}

// A demand and its weight.
fn point_value(alloc: Global, demand: usize, weight: u128) -> Result<Value, AllocError>
    ensures { IfOk result (λ v. view v ≡ point_data (demand, weight)) }
{
    let weight = weight.min(u128::from(u64::MAX)) as u64;
    pair_value(alloc, demand as u64, weight)
}

// The points of the demands that have a weight.
fn point_values(alloc: Global, weights: &[u128]) -> Result<Vec<Value>, AllocError>
    ensures { IfOk result (λ vs. map view vs.items ≡ map point_data (points_from 0 weights.now)) }
{
    let mut points = Vec::new(alloc);
    for (demand, weight) in weights.iter().enumerate() {
        if *weight != 0 {
            let point = point_value(alloc, demand, *weight)?;
            points.push(point)?;
        }
    }
    Ok(points)
}

pub fn law_value(alloc: Global, law: &Law) -> Result<Value, AllocError>
    ensures { IfOk result (λ v. view v ≡ law_data law.now) }
{
    let points = point_values(alloc, law.weights())?;
    let mut members = Map::new(alloc);
    put(&mut members, alloc, "points", Value::Array(points))?;
    Ok(Value::Object(members))
}

fn law_values(alloc: Global, laws: &[Law]) -> Result<Vec<Value>, AllocError>
    ensures { IfOk result (λ vs. map view vs.items ≡ map law_data laws.now) }
{
    let mut values = Vec::new(alloc);
    for law in laws {
        let value = law_value(alloc, law)?;
        values.push(value)?;
    }
    Ok(values)
}

// One law as that law, several as a list.
pub fn laws_value(alloc: Global, laws: &[Law]) -> Result<Value, AllocError>
    ensures { IfOk result (λ v. view v ≡ laws_data laws.now) }
{
    if laws.len() == 1 {
        return law_value(alloc, &laws[0]);
    }
    let values = law_values(alloc, laws)?;
    Ok(Value::Array(values))
}

// Puts numbers under their keys.
pub fn put_amounts(
    members: &mut Map<String, Value>,
    alloc: Global,
    amounts: &[(&str, u64)],
) -> Result<(), AllocError>
    ensures { OnOk result (members_view members.new.entries
        ≡ put_all (map (λ m. (m.0.now, amount_data m.1)) amounts.now) (members_view members.old.entries)) }
{
    for (key, amount) in amounts {
        put(members, alloc, key, Value::from(*amount))?;
    }
    Ok(())
}

// Puts a text under its key.
pub fn put_text(
    members: &mut Map<String, Value>,
    alloc: Global,
    key: &str,
    text: &str,
) -> Result<(), AllocError>
    ensures { OnOk result (members_view members.new.entries
        ≡ with_member key.now (string text.now) (members_view members.old.entries)) }
{
    let value = Value::try_from_str(alloc, text)?;
    put(members, alloc, key, value)
}
