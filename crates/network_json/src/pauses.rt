// The pauses of a network.
ghost use Rattle.std.specs.Prelude.{◌≡◌, length, IfOk};
ghost use Rattle.serde_json.specs.View.{view};
ghost use Rattle.network_model.specs.Pauses.{IsReadableSpan};
ghost use Rattle.json_forms.specs.Faults.{Gives};
ghost use Rattle.json_forms.specs.Items.{item_of};
ghost use Rattle.network_json.specs.Pauses.{pause_named, pause_in, span_keys, span_of};

use crate::names::{NamedNode, Names};
use json_forms::fault::{FieldErr, FieldFault, InstanceErr};
use json_forms::form::{Form, required};
use json_forms::items::ItemForm;
use json_forms::keys::KeyRow::Needed;
use json_forms::keys::{KeyRow, has_keys};
use json_forms::node_names::text_of;
use json_forms::numbers::Count;
use network_model::{Pause, Span};
use serde_json::Value;
use std::alloc::Global;

const KEYS: [KeyRow; 4] = [Needed("node"), Needed("what"), Needed("from"), Needed("to")];

fn pause_named(word: &str) -> Result<Pause, FieldFault>
    ensures { result ≡ pause_named word.now }
{
    if word == "orders" {
        return Ok(Pause::Orders);
    }
    if word == "shipments" {
        return Ok(Pause::Shipments);
    }
    if word == "receipts" {
        return Ok(Pause::Receipts);
    }
    Err(FieldFault::OutOfRange)
}

fn pause_of(value: &Value) -> Result<Pause, FieldFault>
    ensures { result ≡ pause_in (view value.now) }
{
    let word = text_of(value)?;
    pause_named(word)
}

/// What pauses, by its word.
#[derive(Clone, Copy)]
pub struct PauseWord;

impl Form for PauseWord {
    ghost use Rattle.std.specs.Prelude.{⊤};

    type Out = Pause;

    ghost reading = { λ _. pause_in };

    ghost ready = { λ _. ⊤ };

    ghost holds = { λ _ _. ⊤ };

    fn read(&self, _alloc: Global, value: &Value) -> Result<Pause, FieldErr> {
        let pause = pause_of(value)?;
        Ok(pause)
    }
}

// The values of the keys, in the order of the table.
#[tactic(auto, using(json_forms::proofs::Chained::steps), unfolding(crate::specs::Pauses::span_of))]
fn span_values(
    alloc: Global,
    periods: u32,
    names: &Names<'_>,
    object: &Value,
) -> Result<Span, InstanceErr>
    ensures value { Gives result (span_of periods names.now (view object.now)) }
    ensures range { IfOk result (IsReadableSpan periods (length names.now)) }
{
    let node = required(alloc, object, "node", NamedNode { names })?;
    let what = required(alloc, object, "what", PauseWord)?;
    let first = Count {
        least: 1,
        most: periods,
    };
    let from = required(alloc, object, "from", first)?;
    let last = Count {
        least: from,
        most: periods,
    };
    let to = required(alloc, object, "to", last)?;
    Ok(Span {
        node,
        what,
        from,
        to,
    })
}

/// A pause of one of the nodes of these names.
#[derive(Clone, Copy)]
pub struct NodePause<'n, 'a> {
    pub periods: u32,
    pub names: &'n Names<'a>,
}

impl ItemForm for NodePause<'_, '_> {
    ghost use Rattle.std.specs.Prelude.{⊤, length};

    type Out = Span;

    ghost reading = { λ form. item_of span_keys (span_of form.periods form.names.now) };

    ghost ready = { λ _. ⊤ };

    ghost holds = { λ form. IsReadableSpan form.periods (length form.names.now) };

    #[tactic(auto, using(json_forms::proofs::Chained::steps))]
    fn read(&self, alloc: Global, object: &Value) -> Result<Span, InstanceErr> {
        has_keys(alloc, object, &KEYS)?;
        span_values(alloc, self.periods, self.names, object)
    }
}
