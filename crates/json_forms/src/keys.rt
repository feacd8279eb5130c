// The keys of an object, by the table of its kind.
ghost use Rattle.std.specs.Prelude.{◌≡◌, map};
ghost use Rattle.std.specs.List.{list_any};
ghost use Rattle.std.specs.Str.{bytes_eq};
ghost use Rattle.serde_json.specs.View.{view};
ghost use Rattle.serde_json.specs.Find.{as_object};
ghost use Rattle.json_forms.specs.Faults.{Gives, MatchErr, top_key};
ghost use Rattle.json_forms.specs.Keys.{row_of, all_present, all_known, has_keys};
ghost use Rattle.json_forms.specs.declared.fault.InstanceFault.TheVariants.{UnknownKey};

use crate::fault::{InstanceErr, InstanceFault, top_key};
use crate::form::missing;
use serde_json::Value;
use std::alloc::Global;

/// A row of a kind's table.
#[derive(Clone, Copy)]
pub enum KeyRow {
    /// The key must be there.
    Needed(&'static str),
    /// The key may be there.
    Allowed(&'static str),
}

impl KeyRow {
    fn name(self) -> &'static str
        ensures { result.now ≡ (row_of self).1 }
    {
        match self {
            KeyRow::Needed(name) | KeyRow::Allowed(name) => name,
        }
    }

    fn is_needed(self) -> bool
        ensures { result ≡ (row_of self).0 }
    {
        match self {
            KeyRow::Needed(_) => true,
            KeyRow::Allowed(_) => false,
        }
    }
}

fn is_named(rows: &[KeyRow], name: &str) -> bool
    ensures { result ≡ list_any (λ row. bytes_eq row.1 name.now) (map row_of rows.now) }
{
    for row in rows {
        if row.name() == name {
            return true;
        }
    }
    false
}

// Each key that must be there is there, or the first that is not is refused.
fn all_present(alloc: Global, object: &Value, rows: &[KeyRow]) -> Result<(), InstanceErr>
    ensures { Gives result (all_present (map row_of rows.now) (view object.now)) }
{
    for row in rows {
        if row.is_needed() && object.get(row.name()).is_none() {
            return Err(missing(alloc, row.name()));
        }
    }
    Ok(())
}

// The refusal for a key that has no row.
fn unknown(alloc: Global, name: &str) -> InstanceErr
    ensures { MatchErr result (λ fault. fault ≡ UnknownKey (top_key name.now)) }
{
    match top_key(alloc, name) {
        Ok(key) => InstanceErr::Bad(InstanceFault::UnknownKey(key)),
        Err(refused) => refused,
    }
}

// Each key that is there has a row, or the first that has none is refused.
fn all_known(alloc: Global, object: &Value, rows: &[KeyRow]) -> Result<(), InstanceErr>
    ensures { Gives result (all_known (map row_of rows.now) (as_object (view object.now))) }
{
    let Some(members) = object.as_object() else {
        return Ok(());
    };
    for key in members.keys() {
        let name = key.as_str();
        if !is_named(rows, name) {
            return Err(unknown(alloc, name));
        }
    }
    Ok(())
}

/// Each key that must be there is there, and then no key has no row, or the first fault is answered.
pub fn has_keys(alloc: Global, object: &Value, rows: &[KeyRow]) -> Result<(), InstanceErr>
    ensures { Gives result (has_keys (map row_of rows.now) (view object.now)) }
{
    all_present(alloc, object, rows)?;
    all_known(alloc, object, rows)
}
