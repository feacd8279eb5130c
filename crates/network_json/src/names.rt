// Names of nodes, and the places that they stand for.
ghost use Rattle.std.specs.Prelude.{◌≡◌, ◌≤◌, ◌<◌, map, length, IfOk};
ghost use Rattle.serde_json.specs.View.{view};
ghost use Rattle.network_json.specs.Names.{place_of, name_under, names_in, node_in, supplier};

use indexmap::IndexMap;
use json_forms::fault::{FieldErr, FieldFault};
use json_forms::form::Form;
use json_forms::node_names::text_of;
use serde_json::Value;
use std::alloc::{AllocError, Global};
use std::marker::Model;

/// The names of a network's nodes, each found at once. Of nodes of one name the last counts.
#[derive(Drop)]
pub struct Names<'a> {
    nodes: &'a [Value],
    places: IndexMap<&'a str, u32>,
}

impl<'a> Model for Names<'a> {
    ghost use Rattle.std.specs.Prelude.{◌≡◌, ◌≤◌, List, length, map};
    ghost use Rattle.serde_json.specs.View.{view as view_of};
    ghost use Rattle.json_forms.specs.NodeNames.{Name};
    ghost use Rattle.network_json.specs.Names.{names_in};
    ghost use Rattle.network_json.specs.Places.{FindsPlaces};

    ghost Value = { List Name };

    ghost view = { λ names. names_in (map view_of names.nodes.now) };

    ghost invariant = { λ names. (length names.nodes.now ≤ 1000) × FindsPlaces names.places (names_in (map view_of names.nodes.now)) };
}

// The name under the key of an object, or an empty one.
fn name_under(object: &Value) -> &str
    ensures { result.now ≡ name_under (view object.now) }
{
    match object.get("name") {
        Some(name) => name.as_str().unwrap_or(""),
        None => "",
    }
}

impl<'a> Names<'a> {
    /// The names of nodes.
    pub fn of(alloc: Global, nodes: &'a [Value]) -> Result<Names<'a>, AllocError>
        requires { length nodes.now ≤ 1000 }
        ensures { IfOk result (λ names. names ≡ names_in (map view nodes.now)) }
    {
        let mut places = IndexMap::new(alloc);
        for (place, node) in nodes.iter().enumerate() {
            places.insert(name_under(node), place as u32)?;
        }
        Ok(Names { nodes, places })
    }

    // The last place of a name, from 0.
    fn place(&self, name: &str) -> Option<u32>
        ensures { result ≡ place_of self.now name.now }
    {
        self.places.get(name).copied()
    }

    // How many nodes there are.
    fn count(&self) -> u32
        ensures { result ≡ length self.now }
    {
        self.nodes.len() as u32
    }

    /// What a source names: none for outside, a node, or what is no node, which stands past the last one.
    pub fn supplier(&self, name: &str) -> Option<u32>
        ensures { result ≡ supplier self.now name.now }
    {
        if name == "outside" {
            return None;
        }
        match self.place(name) {
            Some(place) => Some(place),
            None => Some(self.count()),
        }
    }
}

/// The node that a text names.
#[derive(Clone, Copy)]
pub struct NamedNode<'n, 'a> {
    pub names: &'n Names<'a>,
}

// The place of the node that a text names.
fn node_of(names: &Names<'_>, value: &Value) -> Result<u32, FieldFault>
    ensures value { result ≡ node_in names.now (view value.now) }
    ensures range { IfOk result (λ place. place < length names.now) }
{
    let name = text_of(value)?;
    match names.place(name) {
        Some(place) => Ok(place),
        None => Err(FieldFault::OutOfRange),
    }
}

impl Form for NamedNode<'_, '_> {
    ghost use Rattle.std.specs.Prelude.{⊤, ◌<◌, length};

    type Out = u32;

    ghost reading = { λ form. node_in form.names.now };

    ghost ready = { λ _. ⊤ };

    ghost holds = { λ form place. place < length form.names.now };

    fn read(&self, _alloc: Global, value: &Value) -> Result<u32, FieldErr> {
        let place = node_of(self.names, value)?;
        Ok(place)
    }
}
