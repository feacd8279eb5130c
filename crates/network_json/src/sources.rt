// The sources of a node.
ghost use Rattle.std.specs.Prelude.{◌≡◌, ◌≤◌, All, Ok, Err, map, length, codes, IfOk};
ghost use Rattle.std.specs.List.{list_all};
ghost use Rattle.serde_json.specs.View.{view};
ghost use Rattle.serde_json.specs.Find.{get};
ghost use Rattle.network_model.specs.Nodes.{IsReadableLink};
ghost use Rattle.network_model.specs.Limits.{most_sources};
ghost use Rattle.json_forms.specs.Steps.{each};
ghost use Rattle.json_forms.specs.Faults.{GivesField};
ghost use Rattle.network_json.specs.Sources.{is_text, is_number, is_number_or_none, amount_under, amount_or_zero, is_source, supplier_under, source_in, all_sources, sources_in};

use crate::names::Names;
use json_forms::fault::{FieldErr, FieldFault};
use json_forms::form::Form;
use json_forms::law_texts::count_keys;
use json_forms::node_names::text_of;
use json_forms::numbers::{amount_of, count_of, is_whole, items};
use network_model::limits::{MOST_NETWORK_LEAD, MOST_SOURCES};
use network_model::{Items, Link};
use serde_json::Value;
use std::alloc::Global;

fn is_text(object: &Value, name: &str) -> bool
    ensures { result ≡ is_text (get name.now (view object.now)) }
{
    match object.get(name) {
        Some(value) => value.as_str().is_some(),
        None => false,
    }
}

/// Whether a whole number stands under a key.
pub fn is_number(object: &Value, name: &str) -> bool
    ensures { result ≡ is_number (get name.now (view object.now)) }
{
    match object.get(name) {
        Some(value) => is_whole(value),
        None => false,
    }
}

fn is_number_or_none(object: &Value, name: &str) -> bool
    ensures { result ≡ is_number_or_none (get name.now (view object.now)) }
{
    match object.get(name) {
        Some(value) => is_whole(value),
        None => true,
    }
}

/// The number under an inner key.
pub fn amount_under(object: &Value, name: &str, least: u64, most: u64) -> Result<u64, FieldFault>
    ensures value { result ≡ amount_under least most (get name.now (view object.now)) }
    ensures least { IfOk result (λ number. least ≤ number) }
    ensures most { IfOk result (λ number. number ≤ most) }
{
    match object.get(name) {
        Some(value) => amount_of(value, least, most),
        None => Err(FieldFault::WrongType),
    }
}

// The periods under an inner key.
fn lead_under(object: &Value, name: &str) -> Result<u32, FieldFault>
    ensures value { result ≡ amount_under 0 64 (get name.now (view object.now)) }
    ensures most { IfOk result (λ number. number ≤ 64) }
{
    match object.get(name) {
        Some(value) => count_of(value, 0, MOST_NETWORK_LEAD),
        None => Err(FieldFault::WrongType),
    }
}

// The periods under an inner key, 0 where it is absent.
fn lead_or_zero(object: &Value, name: &str) -> Result<u32, FieldFault>
    ensures value { result ≡ amount_or_zero 64 (get name.now (view object.now)) }
    ensures most { IfOk result (λ number. number ≤ 64) }
{
    match object.get(name) {
        Some(value) => count_of(value, 0, MOST_NETWORK_LEAD),
        None => Ok(0),
    }
}

// A name, a lead time, perhaps the time that an order takes, and no other key.
fn is_source(value: &Value) -> bool
    ensures { result ≡ is_source (view value.now) }
{
    let keys = if value.get("order_lead").is_some() {
        3
    } else {
        2
    };
    is_text(value, "from")
        && is_number(value, "lead")
        && is_number_or_none(value, "order_lead")
        && count_keys(value) == keys
}

fn are_sources(list: &[Value]) -> bool
    ensures { result ≡ list_all is_source (map view list.now) }
{
    for value in list {
        if !is_source(value) {
            return false;
        }
    }
    true
}

fn supplier_under(names: &Names<'_>, object: &Value) -> Result<Option<u32>, FieldFault>
    ensures { result ≡ supplier_under names.now (get (codes "from") (view object.now)) }
{
    let Some(value) = object.get("from") else {
        return Err(FieldFault::WrongType);
    };
    let name = text_of(value)?;
    Ok(names.supplier(name))
}

// A source of the right shape.
fn source(names: &Names<'_>, value: &Value) -> Result<Link, FieldFault>
    ensures value { result ≡ source_in names.now (view value.now) }
    ensures range { IfOk result IsReadableLink }
{
    let from = supplier_under(names, value)?;
    let lead = lead_under(value, "lead")?;
    let order_lead = lead_or_zero(value, "order_lead")?;
    Ok(Link {
        from,
        lead,
        order_lead,
    })
}

fn listed_sources(alloc: Global, names: &Names<'_>, list: &[Value]) -> Result<Items<Link>, FieldErr>
    ensures value { GivesField result (each (source_in names.now) (map view list.now)) }
    ensures range { IfOk result (All IsReadableLink) }
{
    let mut links = Vec::new(alloc);
    for value in list {
        let link = source(names, value)?;
        links.push(link)?;
    }
    Ok(Items::new(links))
}

// A list of 1 to 8 sources.
fn some_sources(alloc: Global, names: &Names<'_>, value: &Value) -> Result<Items<Link>, FieldErr>
    ensures value { GivesField result (sources_in names.now (view value.now)) }
    ensures range { IfOk result (All IsReadableLink) }
    ensures some { IfOk result (λ links. 1 ≤ length links) }
    ensures few { IfOk result (λ links. length links ≤ most_sources) }
{
    let Some(list) = items(value) else {
        return Err(FieldErr::Bad(FieldFault::WrongType));
    };
    if !are_sources(list) {
        return Err(FieldErr::Bad(FieldFault::WrongType));
    }
    let links = listed_sources(alloc, names, list)?;
    let count = links.as_slice().len();
    if count < 1 {
        return Err(FieldErr::Bad(FieldFault::LengthMismatch));
    }
    if count > MOST_SOURCES {
        return Err(FieldErr::Bad(FieldFault::LengthMismatch));
    }
    Ok(links)
}

/// The sources of a node.
#[derive(Clone, Copy)]
pub struct Sources<'n, 'a> {
    pub names: &'n Names<'a>,
}

impl Form for Sources<'_, '_> {
    ghost use Rattle.std.specs.Prelude.{⊤, ◌≤◌, length, All};

    type Out = Items<Link>;

    ghost reading = { λ form. sources_in form.names.now };

    ghost ready = { λ _. ⊤ };

    ghost holds = { λ _ links. All IsReadableLink links × (1 ≤ length links) × (length links ≤ most_sources) };

    fn read(&self, alloc: Global, value: &Value) -> Result<Items<Link>, FieldErr> {
        some_sources(alloc, self.names, value)
    }
}
