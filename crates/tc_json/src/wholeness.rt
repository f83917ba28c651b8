//! Whether each number of a JSON value is held as an `i64`.

ghost use Rattle.std.specs.Prelude.{◌≡◌, is_some};
ghost use Rattle.serde_json.specs.View.{view, items_view, members_view};
ghost use Rattle.tc_model.specs.Json.{is_whole, items_meant, members_meant};

use serde_json::{Map, Value};

/// Whether each number in the value is held as an `i64`, at any depth. Takes no memory.
#[cycle(whole)]
pub fn is_whole(value: &Value) -> bool
    ensures { result ≡ is_whole (view value.now) }
{
    match value {
        Value::Null | Value::Bool(_) | Value::String(_) => true,
        Value::Number(number) => number.is_i64(),
        Value::Array(items) => are_items_whole(items),
        Value::Object(members) => are_members_whole(members),
    }
}

#[cycle(whole)]
fn are_items_whole(items: &Vec<Value>) -> bool
    ensures { result ≡ is_some (items_meant (items_view items.now.items)) }
{
    for item in items {
        if !is_whole(item) {
            return false;
        }
    }
    true
}

#[cycle(whole)]
fn are_members_whole(members: &Map<String, Value>) -> bool
    ensures { result ≡ is_some (members_meant (members_view members.now.entries)) }
{
    for (_name, value) in members.iter() {
        if !is_whole(value) {
            return false;
        }
    }
    true
}
