// Lists of objects, each with keys of its own.
ghost use Rattle.std.specs.Prelude.{◌≡◌, ◌≤◌, [], All, Ok, Err, map, length, option_map, IfOk, IfErr, IfSome, MatchResult};
ghost use Rattle.std.specs.List.{list_all};
ghost use Rattle.serde_json.specs.View.{view};
ghost use Rattle.json_forms.specs.Faults.{Gives, Refuses, of_item};
ghost use Rattle.json_forms.specs.Keys.{given, required, optional};
ghost use Rattle.json_forms.specs.Items.{is_object, objects_in, items_from};

use crate::fault::{FieldErr, FieldFault, InstanceErr, KeyList, item_err, key_err};
use crate::form::missing;
use crate::numbers::items;
use model_terms::Items;
use serde_json::Value;
use std::alloc::Global;

/// What an object of a list says.
pub trait ItemForm {
    ghost use Rattle.std.specs.Prelude.{Result};
    ghost use Rattle.serde_json.specs.Data.{Data};
    ghost use Rattle.json_forms.specs.declared.fault.InstanceFault.{InstanceFault};

    type Out: Drop;

    /// What an object of this form says, or its fault.
    ghost reading: { Self → Data → Result Self.Out InstanceFault };

    /// What the reader asks of the form.
    ghost ready: { Self → Type 0 };

    /// What holds of each object that is read.
    ghost holds: { Self → Self.Out → Type 0 };

    fn read(&self, alloc: Global, object: &Value) -> Result<Self::Out, InstanceErr>
        requires { ready self.now }
        ensures value { Gives result (reading self.now (view object.now)) }
        ensures range { IfOk result (holds self.now) };
}

// The object at a place of the list, from 1.
fn read_item<F: ItemForm>(
    alloc: Global,
    form: &F,
    list: KeyList,
    place: u32,
    object: &Value,
) -> Result<F::Out, InstanceErr>
    requires { F.ready form.now }
    ensures value { Gives result (of_item list place (F.reading form.now (view object.now))) }
    ensures range { IfOk result (F.holds form.now) }
{
    match form.read(alloc, object) {
        Ok(item) => Ok(item),
        Err(error) => Err(item_err(list, place, error)),
    }
}

/// The objects of a list, one by one.
pub fn read_items<F: ItemForm>(
    alloc: Global,
    form: &F,
    list: KeyList,
    objects: &[Value],
) -> Result<Items<F::Out>, InstanceErr>
    requires ready { F.ready form.now }
    requires few { length objects.now ≤ 1000 }
    ensures value { Gives result (items_from list 1 (F.reading form.now) (map view objects.now)) }
    ensures each { IfOk result (All (F.holds form.now)) }
    ensures count { IfOk result (λ items. length items ≡ length objects.now) }
{
    let mut items = Vec::new(alloc);
    let mut place: u32 = 1;
    for object in objects {
        let item = read_item(alloc, form, list, place, object)?;
        if items.push(item).is_err() {
            return Err(InstanceErr::Memory);
        }
        place += 1;
    }
    Ok(Items::new(items))
}

fn are_objects(list: &[Value]) -> bool
    ensures { result ≡ list_all is_object (map view list.now) }
{
    for value in list {
        if value.as_object().is_none() {
            return false;
        }
    }
    true
}

// The objects of a list of `least` to `most`.
fn objects(value: &Value, least: usize, most: usize) -> Result<&[Value], FieldFault>
    ensures value { MatchResult result
        (λ list. objects_in least most (view value.now) ≡ Ok (map view list.now))
        (λ fault. objects_in least most (view value.now) ≡ Err fault) }
    ensures least { IfOk result (λ list. least ≤ length list.now) }
    ensures most { IfOk result (λ list. length list.now ≤ most) }
{
    let Some(list) = items(value) else {
        return Err(FieldFault::WrongType);
    };
    if list.len() < least {
        return Err(FieldFault::LengthMismatch);
    }
    if list.len() > most {
        return Err(FieldFault::LengthMismatch);
    }
    if !are_objects(list) {
        return Err(FieldFault::WrongType);
    }
    Ok(list)
}

// The objects under a key that may be absent.
fn given_objects<'a>(
    alloc: Global,
    object: &'a Value,
    name: &str,
    least: usize,
    most: usize,
) -> Result<Option<&'a [Value]>, InstanceErr>
    ensures ok { IfOk result (λ found. given (objects_in least most) name.now (view object.now) ≡ Ok (option_map (λ list. map view list.now) found)) }
    ensures err { IfErr result (λ e. Refuses e (given (objects_in least most) name.now (view object.now))) }
    ensures least { IfOk result (λ found. IfSome found (λ list. least ≤ length list.now)) }
    ensures most { IfOk result (λ found. IfSome found (λ list. length list.now ≤ most)) }
{
    let Some(value) = object.get(name) else {
        return Ok(None);
    };
    match objects(value, least, most) {
        Ok(list) => Ok(Some(list)),
        Err(fault) => Err(key_err(alloc, name, FieldErr::Bad(fault))),
    }
}

/// The objects under a key that must be there.
pub fn required_objects<'a>(
    alloc: Global,
    object: &'a Value,
    name: &str,
    least: usize,
    most: usize,
) -> Result<&'a [Value], InstanceErr>
    ensures ok { IfOk result (λ list. required (objects_in least most) name.now (view object.now) ≡ Ok (map view list.now)) }
    ensures err { IfErr result (λ e. Refuses e (required (objects_in least most) name.now (view object.now))) }
    ensures least { IfOk result (λ list. least ≤ length list.now) }
    ensures most { IfOk result (λ list. length list.now ≤ most) }
{
    match given_objects(alloc, object, name, least, most)? {
        Some(list) => Ok(list),
        None => Err(missing(alloc, name)),
    }
}

/// The objects under a key, or none where it is absent.
pub fn objects_or_none<'a>(
    alloc: Global,
    object: &'a Value,
    name: &str,
    most: usize,
) -> Result<&'a [Value], InstanceErr>
    ensures ok { IfOk result (λ list. optional (objects_in 0 most) [] name.now (view object.now) ≡ Ok (map view list.now)) }
    ensures err { IfErr result (λ e. Refuses e (optional (objects_in 0 most) [] name.now (view object.now))) }
    ensures most { IfOk result (λ list. length list.now ≤ most) }
{
    match given_objects(alloc, object, name, 0, most)? {
        Some(list) => Ok(list),
        None => Ok(&[]),
    }
}
