//! The form of a command: its `op`, and values under exactly the names that it has.

ghost use Rattle.std.specs.Prelude.{◌≡◌, ◌∷◌, [], codes, map, Option, option_map, option_and_then};
ghost use Rattle.serde_json.specs.Data.{Data, Items};
ghost use Rattle.serde_json.specs.Find.{get_member};
ghost use Rattle.serde_json.specs.View.{view, items_view, members_view};
ghost use Rattle.tc_request_model.specs.Request.{Form as FormMeant, names_are, value_at, if_object, if_path, is_hop, are_hops, ask_form, bare_form, form_named, form_of, upsert_form, delete_form, get_form, query_form, scan_form};
ghost use Rattle.tc_command.specs.Forms.{form_meant, ask_meant};

use serde_json::{Map, Value};

/// A command whose values are borrowed from the line's value, and of which no number was looked at.
#[derive(Clone, Copy)]
pub(crate) enum Form<'v> {
    Upsert(&'v Value),
    Delete(&'v Value),
    Get(&'v Value),
    Query(AskForm<'v>),
    Flush,
    Schema,
    Scan(AskForm<'v>),
    Collect,
}

/// The path and the `eq` of a query or a scan.
#[derive(Clone, Copy)]
pub(crate) struct AskForm<'v> {
    pub(crate) path: &'v Vec<Value>,
    pub(crate) eq: Option<&'v Value>,
}

/// The form of a command, or `None` exactly where the value is no command.
pub(crate) fn form_of(value: &Value) -> Option<Form<'_>>
    ensures { option_map form_meant result ≡ form_of (view value.now) }
{
    match value {
        Value::Object(members) => {
            let op = member(members, "op")?.as_str()?;
            form_named(op, members)
        }
        _ => None,
    }
}

fn form_named<'v>(op: &str, members: &'v Map<String, Value>) -> Option<Form<'v>>
    ensures { option_map form_meant result ≡ form_named op.now (members_view members.now.entries) }
{
    if op == "upsert" {
        upsert_in(members)
    } else if op == "delete" {
        delete_in(members)
    } else if op == "get" {
        get_in(members)
    } else if op == "query" {
        query_in(members)
    } else if op == "flush" {
        bare_in(Form::Flush, members)
    } else if op == "schema" {
        bare_in(Form::Schema, members)
    } else if op == "scan" {
        scan_in(members)
    } else if op == "collect" {
        bare_in(Form::Collect, members)
    } else {
        None
    }
}

fn upsert_in(members: &Map<String, Value>) -> Option<Form<'_>>
    ensures { option_map form_meant result
        ≡ option_map upsert_form (option_and_then if_object (value_at (codes "doc") (codes "doc" ∷ codes "op" ∷ [])
        (members_view members.now.entries))) }
{
    Some(Form::Upsert(doc_in(members)?))
}

fn delete_in(members: &Map<String, Value>) -> Option<Form<'_>>
    ensures { option_map form_meant result
        ≡ option_map delete_form (value_at (codes "id") (codes "id" ∷ codes "op" ∷ []) (members_view members.now.entries)) }
{
    Some(Form::Delete(value_at("id", &["id", "op"], members)?))
}

fn get_in(members: &Map<String, Value>) -> Option<Form<'_>>
    ensures { option_map form_meant result
        ≡ option_map get_form (value_at (codes "id") (codes "id" ∷ codes "op" ∷ []) (members_view members.now.entries)) }
{
    Some(Form::Get(value_at("id", &["id", "op"], members)?))
}

fn query_in(members: &Map<String, Value>) -> Option<Form<'_>>
    ensures { option_map form_meant result ≡ ask_form query_form (members_view members.now.entries) }
{
    Some(Form::Query(ask_in(members)?))
}

fn scan_in(members: &Map<String, Value>) -> Option<Form<'_>>
    ensures { option_map form_meant result ≡ ask_form scan_form (members_view members.now.entries) }
{
    Some(Form::Scan(ask_in(members)?))
}

// A command that has its `op` alone.
fn bare_in<'v>(form: Form<'v>, members: &Map<String, Value>) -> Option<Form<'v>>
    ensures { option_map form_meant result ≡ bare_form (form_meant form.entry) (members_view members.now.entries) }
{
    if names_are(&["op"], members) {
        Some(form)
    } else {
        None
    }
}

// The document of an upsert, which is an object.
fn doc_in(members: &Map<String, Value>) -> Option<&Value>
    ensures { option_map (λ v. view v.now) result
        ≡ option_and_then if_object (value_at (codes "doc") (codes "doc" ∷ codes "op" ∷ [])
        (members_view members.now.entries)) }
{
    let doc = value_at("doc", &["doc", "op"], members)?;
    match doc {
        Value::Object(_) => Some(doc),
        _ => None,
    }
}

// The path and the `eq` of a query or a scan, where `eq` is free.
fn ask_in(members: &Map<String, Value>) -> Option<AskForm<'_>>
    ensures { (form : Items → Option Data → FormMeant) → option_map (ask_meant form) result
        ≡ ask_form form (members_view members.now.entries) }
{
    if names_are(&["eq", "op", "path"], members) {
        let path = path_in(members)?;
        Some(AskForm {
            path,
            eq: member(members, "eq"),
        })
    } else if names_are(&["op", "path"], members) {
        let path = path_in(members)?;
        Some(AskForm { path, eq: None })
    } else {
        None
    }
}

// The path: an array of texts, numbers and nulls.
fn path_in(members: &Map<String, Value>) -> Option<&Vec<Value>>
    ensures { option_map (λ v. items_view v.now.items) result
        ≡ option_and_then if_path (get_member (codes "path") (members_view members.now.entries)) }
{
    match member(members, "path")? {
        Value::Array(items) => if are_hops(items) { Some(items) } else { None },
        _ => None,
    }
}

fn are_hops(items: &Vec<Value>) -> bool
    ensures { result ≡ are_hops (items_view items.now.items) }
{
    for item in items {
        if !is_hop(item) {
            return false;
        }
    }
    true
}

fn is_hop(value: &Value) -> bool
    ensures { result ≡ is_hop (view value.now) }
{
    match value {
        Value::Null | Value::Number(_) | Value::String(_) => true,
        Value::Bool(_) | Value::Array(_) | Value::Object(_) => false,
    }
}

// The value under a name, where the members have exactly these names.
fn value_at<'v>(name: &str, names: &[&str], members: &'v Map<String, Value>) -> Option<&'v Value>
    ensures { option_map (λ v. view v.now) result
        ≡ value_at name.now (map (λ n. n.now) names.now) (members_view members.now.entries) }
{
    if names_are(names, members) {
        member(members, name)
    } else {
        None
    }
}

// Whether the members have exactly these names, which stand in ascending byte order.
fn names_are(names: &[&str], members: &Map<String, Value>) -> bool
    ensures { result ≡ names_are (map (λ n. n.now) names.now) (members_view members.now.entries) }
{
    let mut left = members.iter();
    for name in names {
        match left.next() {
            Some((key, _)) => if key.as_str() != *name {
                return false;
            },
            None => return false,
        }
    }
    left.next().is_none()
}

fn member<'v>(members: &'v Map<String, Value>, name: &str) -> Option<&'v Value>
    ensures { option_map (λ v. view v.now) result
        ≡ get_member name.now (members_view members.now.entries) }
{
    members.get(name)
}
