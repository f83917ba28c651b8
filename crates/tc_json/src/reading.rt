//! The document that a JSON value means.

ghost use Rattle.std.specs.Prelude.{◌≡◌, ◌≤◌, ◌<◌, Some, None, IfOk, IsErrOf};
ghost use Rattle.serde_json.specs.Data.{depth as nesting, items_depth, members_depth};
ghost use Rattle.serde_json.specs.View.{view, items_view, members_view};
ghost use Rattle.tc_model.specs.Tree.{depth, items_of, members_of};
ghost use Rattle.tc_model.specs.Document.{Document};
ghost use Rattle.tc_model.specs.Json.{document_of, items_meant, members_meant};
ghost use Rattle.tc_model.specs.Limits.{max_depth};
ghost use Rattle.tc_value.specs.Meaning.{tree_of};

use crate::fault::JsonFault;
use crate::wholeness::is_whole;
use serde_json::{Map, Value};
use std::alloc::{AllocError, Global};
use tc_value::{Doc, Items, MAX_DEPTH, Member, Members, Text};

/// The document that a JSON value means, in memory of its own. Errs with `NotWhole` exactly where a
/// number in the value is not held as an `i64`, and with `TooDeep` exactly where all numbers are and
/// arrays and objects nest deeper than 32. Recurses over a deeper value only to judge its numbers.
#[tactic(auto, using(crate::proofs::Depths::depth_is_nesting))]
pub fn doc_of(alloc: Global, value: &Value) -> Result<Doc, JsonFault>
    ensures ok { IfOk result (λ d. document_of (view value.now) ≡ Some (tree_of d)) }
    ensures shallow { IfOk result (λ d. depth (tree_of d) ≤ max_depth) }
    ensures not_whole { IsErrOf result JsonFault.NotWhole → document_of (view value.now) ≡ None }
    ensures too_deep { IsErrOf result JsonFault.TooDeep
        → (t : Document) × (document_of (view value.now) ≡ Some t) × (max_depth < depth t) }
{
    match convert(alloc, value, MAX_DEPTH) {
        Err(JsonFault::TooDeep) if !is_whole(value) => Err(JsonFault::NotWhole),
        converted => converted,
    }
}

// The document of a value that nests no deeper than `room`. The first fault in the value is answered,
// so that one pass serves where there is none.
#[cycle(convert)]
fn convert(alloc: Global, value: &Value, room: u32) -> Result<Doc, JsonFault>
    ensures ok { IfOk result (λ d. document_of (view value.now) ≡ Some (tree_of d)) }
    ensures shallow { IfOk result (λ d. nesting (view value.now) ≤ room) }
    ensures not_whole { IsErrOf result JsonFault.NotWhole → document_of (view value.now) ≡ None }
    ensures too_deep { IsErrOf result JsonFault.TooDeep → room < nesting (view value.now) }
{
    match value {
        Value::Null => Ok(Doc::Null),
        Value::Bool(b) => Ok(Doc::Bool(*b)),
        Value::Number(number) => Ok(Doc::Int(number.as_i64().ok_or(JsonFault::NotWhole)?)),
        Value::String(text) => Ok(Doc::Text(copy_of(alloc, text.as_str())?)),
        Value::Array(items) => {
            let inside = room.checked_sub(1).ok_or(JsonFault::TooDeep)?;
            Ok(Doc::Array(convert_items(alloc, items, inside)?))
        }
        Value::Object(members) => {
            let inside = room.checked_sub(1).ok_or(JsonFault::TooDeep)?;
            Ok(Doc::Object(convert_members(alloc, members, inside)?))
        }
    }
}

#[cycle(convert)]
fn convert_items(alloc: Global, items: &Vec<Value>, room: u32) -> Result<Items, JsonFault>
    ensures ok { IfOk result (λ xs. items_meant (items_view items.now.items) ≡ Some (items_of xs)) }
    ensures shallow { IfOk result (λ xs. items_depth (items_view items.now.items) ≤ room) }
    ensures not_whole { IsErrOf result JsonFault.NotWhole → items_meant (items_view items.now.items) ≡ None }
    ensures too_deep { IsErrOf result JsonFault.TooDeep → room < items_depth (items_view items.now.items) }
{
    let mut docs = Vec::with_capacity(alloc, items.len())?;
    for item in items {
        docs.push(convert(alloc, item, room)?)?;
    }
    Ok(Items::of(docs))
}

#[cycle(convert)]
fn convert_members(
    alloc: Global,
    members: &Map<String, Value>,
    room: u32,
) -> Result<Members, JsonFault>
    ensures ok { IfOk result (λ ms. members_meant (members_view members.now.entries) ≡ Some (members_of ms)) }
    ensures shallow { IfOk result (λ ms. members_depth (members_view members.now.entries) ≤ room) }
    ensures not_whole { IsErrOf result JsonFault.NotWhole → members_meant (members_view members.now.entries) ≡ None }
    ensures too_deep { IsErrOf result JsonFault.TooDeep → room < members_depth (members_view members.now.entries) }
{
    let mut listed = Vec::with_capacity(alloc, members.len())?;
    for (name, value) in members.iter() {
        let name = copy_of(alloc, name.as_str())?;
        let value = convert(alloc, value, room)?;
        listed.push(Member { name, value })?;
    }
    Ok(Members::of(listed))
}

fn copy_of(alloc: Global, text: &str) -> Result<Text, AllocError>
    ensures { IfOk result (λ copied. copied ≡ text.now) }
{
    Ok(Text::copy_of(alloc, text)?)
}
