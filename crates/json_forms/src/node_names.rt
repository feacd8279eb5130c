// Texts, and names of nodes among them.
ghost use Rattle.std.specs.Prelude.{◌≡◌, Ok, Err, MatchResult};
ghost use Rattle.std.specs.List.{list_all};
ghost use Rattle.serde_json.specs.View.{view};
ghost use Rattle.model_terms.specs.Names.{is_name_byte, is_node_name};
ghost use Rattle.json_forms.specs.NodeNames.{text_in, node_name_in, name_text};

use crate::fault::{FieldErr, FieldFault};
use crate::form::Form;
use fraction128::Text;
use model_terms::limits::MOST_NAME;
use serde_json::Value;
use std::alloc::Global;
use std::str;

/// A text.
pub fn text_of(value: &Value) -> Result<&str, FieldFault>
    ensures { MatchResult result (λ s. text_in (view value.now) ≡ Ok s.now) (λ fault. text_in (view value.now) ≡ Err fault) }
{
    match value.as_str() {
        Some(text) => Ok(text),
        None => Err(FieldFault::WrongType),
    }
}

fn is_name_byte(byte: u8) -> bool
    ensures { result ≡ is_name_byte byte }
{
    (b'a' <= byte && byte <= b'z')
        || (b'A' <= byte && byte <= b'Z')
        || (b'0' <= byte && byte <= b'9')
        || byte == b'_'
        || byte == b'-'
}

fn are_name_bytes(bytes: &[u8]) -> bool
    ensures { result ≡ list_all is_name_byte bytes.now }
{
    for byte in bytes {
        if !is_name_byte(*byte) {
            return false;
        }
    }
    true
}

fn is_node_name(name: &str) -> bool
    ensures { result ≡ is_node_name name.now }
{
    let bytes = name.as_bytes();
    1 <= bytes.len() && bytes.len() <= MOST_NAME && are_name_bytes(bytes) && name != "outside"
}

/// The name of a node.
#[derive(Clone, Copy)]
pub struct NodeName;

impl Form for NodeName {
    ghost use Rattle.std.specs.Prelude.{⊤, IsTrue};
    ghost use Rattle.model_terms.specs.Names.{is_node_name};

    type Out = Text;

    ghost reading = { λ _. node_name_in };

    ghost ready = { λ _. ⊤ };

    ghost holds = { λ _ name. IsTrue (is_node_name name) };

    fn read(&self, alloc: Global, value: &Value) -> Result<Text, FieldErr> {
        let name = text_of(value)?;
        if !is_node_name(name) {
            return Err(FieldErr::Bad(FieldFault::OutOfRange));
        }
        let mut text = Text::new(alloc);
        text.push(name.as_bytes())?;
        Ok(text)
    }
}

/// A name as a text; bytes that are no text as an empty one.
pub fn name_text(name: &[u8]) -> &str
    ensures { result.now ≡ name_text name.now }
{
    match str::from_utf8(name) {
        Ok(text) => text,
        Err(_) => "",
    }
}
