//! The JSON value that a document is, and its text.

ghost use Rattle.std.specs.Prelude.{◌≡◌, IfOk};
ghost use Rattle.serde_json.specs.View.{view, items_view, members_view};
ghost use Rattle.serde_json.specs.Written.{compact_text};
ghost use Rattle.tc_model.specs.Tree.{items_of, members_of};
ghost use Rattle.tc_model.specs.Json.{data_of, items_data, members_data};
ghost use Rattle.tc_value.specs.Meaning.{tree_of};

use serde_json::{Map, Value};
use std::alloc::{AllocError, Global};
use tc_value::{Doc, Items, Members, Text};

/// The JSON value that a document is, in memory of its own. Errs only for want of memory.
#[cycle(write)]
pub fn value_of(alloc: Global, doc: &Doc) -> Result<Value, AllocError>
    ensures { IfOk result (λ v. view v ≡ data_of (tree_of doc.now)) }
{
    match doc {
        Doc::Null => Ok(Value::Null),
        Doc::Bool(b) => Ok(Value::Bool(*b)),
        Doc::Int(n) => Ok(Value::from(*n)),
        Doc::Text(text) => Ok(Value::String(String::from_str(alloc, text.as_str())?)),
        Doc::Array(items) => Ok(Value::Array(array_of(alloc, items)?)),
        Doc::Object(members) => Ok(Value::Object(object_of(alloc, members)?)),
    }
}

#[cycle(write)]
fn array_of(alloc: Global, items: &Items) -> Result<Vec<Value>, AllocError>
    ensures { IfOk result (λ v. items_view v.items ≡ items_data (items_of items.now)) }
{
    let docs = items.as_slice();
    let mut values = Vec::with_capacity(alloc, docs.len())?;
    for doc in docs {
        values.push(value_of(alloc, doc)?)?;
    }
    Ok(values)
}

#[cycle(write)]
fn object_of(alloc: Global, members: &Members) -> Result<Map<String, Value>, AllocError>
    ensures { IfOk result (λ m. members_view m.entries ≡ members_data (members_of members.now)) }
{
    let mut values = Map::new(alloc);
    for member in members.as_slice() {
        let name = String::from_str(alloc, member.name.as_str())?;
        drop(values.insert(name, value_of(alloc, &member.value)?)?);
    }
    Ok(values)
}

/// The compact JSON text of a document. Errs only for want of memory.
#[tactic(auto, using(crate::proofs::Floats::documents_have_no_floats))]
pub fn text_of(alloc: Global, doc: &Doc) -> Result<Text, AllocError>
    ensures { IfOk result (λ text. text ≡ compact_text (data_of (tree_of doc.now))) }
{
    Ok(Text::of(value_of(alloc, doc)?.to_string(alloc)?))
}
