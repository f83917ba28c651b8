//! The command of a form.

ghost use Rattle.std.specs.Prelude.{◌≡◌, ◌≤◌, IsTrue, IsSome, IfOk, IfErr, IfSome, Some, codes, map, option_map, option_and_then};
ghost use Rattle.serde_json.specs.Data.{array};
ghost use Rattle.serde_json.specs.View.{view, items_view};
ghost use Rattle.tc_model.specs.Tree.{depth, object, members_of};
ghost use Rattle.tc_model.specs.Document.{IsAscending, member_at};
ghost use Rattle.tc_model.specs.Json.{document_of, is_whole};
ghost use Rattle.tc_request_model.specs.Request.{Ask as AskMeant, Request, within_depth, upsert_of as upsert_meant, command_of as command_meant, ask_of as ask_requested, key_of, without, path_of as path_meant, hop_of as hop_meant};
ghost use Rattle.tc_model.specs.Limits.{max_depth, max_key};
ghost use Rattle.tc_value.specs.Meaning.{tree_of, member_of};
ghost use Rattle.tc_command.specs.Asks.{hop_of};
ghost use Rattle.tc_command.specs.Commands.{request_by, request_with, IsLawful, IsLawfulAsk, IsOfLine};
ghost use Rattle.tc_command.specs.Forms.{form_meant, HasWholePath};

use crate::asks::{Ask, Hop, PathExpr};
use crate::commands::Command;
use crate::forms::{AskForm, Form};
use crate::refusals::{ParseFault, Refusal};
use serde_json::Value;
use std::alloc::{AllocError, Global};
use tc_json::doc_of;
use tc_value::{Doc, Member, Members, Text};

/// The command of a form.
pub(crate) fn command_of(alloc: Global, form: Form<'_>) -> Result<Command, ParseFault>
    requires { HasWholePath (form_meant form) }
    ensures asked { IfSome (request_by result) (λ r. command_meant (form_meant form.entry) ≡ r) }
    ensures lawful { IfOk result IsLawful }
    ensures of_line { IfErr result IsOfLine }
{
    match form {
        Form::Upsert(doc) => upsert_in(alloc, doc),
        Form::Delete(id) => Ok(Command::Delete {
            key: key_in(id).ok_or(ParseFault::Refused(Refusal::Key))?,
        }),
        Form::Get(id) => Ok(Command::Get {
            key: key_in(id).ok_or(ParseFault::Refused(Refusal::Key))?,
        }),
        Form::Query(ask) => Ok(Command::Query(ask_in(alloc, ask)?)),
        Form::Flush => Ok(Command::Flush),
        Form::Schema => Ok(Command::Schema),
        Form::Scan(ask) => Ok(Command::Scan(ask_in(alloc, ask)?)),
        Form::Collect => Ok(Command::Collect),
    }
}

// The key that a value is: a number that is not negative.
fn key_in(value: &Value) -> Option<u64>
    ensures key { result ≡ option_and_then key_of (document_of (view value.now)) }
    ensures bound { IfSome result (λ n. n ≤ max_key) }
{
    let number = value.as_i64()?;
    if number >= 0 {
        Some(number as u64)
    } else {
        None
    }
}

// ---- upserts

fn upsert_in(alloc: Global, value: &Value) -> Result<Command, ParseFault>
    ensures asked { IfSome (request_by result)
        (λ r. within_depth upsert_meant (document_of (view value.now)) ≡ r) }
    ensures lawful { IfOk result IsLawful }
    ensures of_line { IfErr result IsOfLine }
{
    upsert_of(doc_of(alloc, value)?)
}

/// The upsert of a document of a line. Its member `id` is the key, and stands no longer in the document. What is no object is
/// refused as unknown, and an object without a key of its own for its key.
pub fn upsert_of(doc: Doc) -> Result<Command, ParseFault>
    requires { depth (tree_of doc) ≤ max_depth }
    ensures asked { IfSome (request_by result) (λ r. upsert_meant (tree_of doc) ≡ r) }
    ensures lawful { IfOk result IsLawful }
    ensures of_line { IfErr result IsOfLine }
{
    match doc {
        Doc::Object(members) => upsert_with(members.into_inner()),
        _other => Err(ParseFault::Refused(Refusal::Unknown)),
    }
}

// The member `id` is the key, and stands no longer in the document.
fn upsert_with(members: Vec<Member>) -> Result<Command, ParseFault>
    requires ascending { IsAscending (map member_of members.items) }
    requires shallow { depth (object (members_of (map member_of members.items))) ≤ max_depth }
    ensures asked { IfSome (request_by result)
        (λ r. upsert_meant (object (members_of (map member_of members.items))) ≡ r) }
    ensures lawful { IfOk result IsLawful }
    ensures of_line { IfErr result IsOfLine }
{
    let key = key_among(&members).ok_or(ParseFault::Refused(Refusal::Key))?;
    let doc = Doc::Object(without_id(members));
    Ok(Command::Upsert { key, doc })
}

fn without_id(mut members: Vec<Member>) -> Members
    requires { IsAscending (map member_of members.items) }
    ensures { members_of result ≡ without (codes "id") (members_of (map member_of members.items)) }
{
    members.retain(|member| member.name.as_str() != "id");
    Members::of(members)
}

// The key of a document with these members.
fn key_among(members: &[Member]) -> Option<u64>
    ensures key { result
        ≡ option_and_then key_of (member_at (codes "id") (members_of (map member_of members.now))) }
    ensures bound { IfSome result (λ n. n ≤ max_key) }
{
    for member in members {
        if member.name.as_str() == "id" {
            return key_of(&member.value);
        }
    }
    None
}

fn key_of(doc: &Doc) -> Option<u64>
    ensures key { result ≡ key_of (tree_of doc.now) }
    ensures bound { IfSome result (λ n. n ≤ max_key) }
{
    match doc {
        Doc::Int(number) => if *number >= 0 {
            Some(*number as u64)
        } else {
            None
        },
        _ => None,
    }
}

// ---- queries and scans

fn ask_in(alloc: Global, form: AskForm<'_>) -> Result<Ask, ParseFault>
    requires { IsTrue (is_whole (array (items_view form.path.now.items))) }
    ensures asked { (command : AskMeant → Request) → IfSome (request_with command result)
        (λ r. ask_requested command (items_view form.entry.path.now.items)
        (option_map (λ v. view v.now) form.entry.eq) ≡ r) }
    ensures lawful { IfOk result IsLawfulAsk }
    ensures of_line { IfErr result IsOfLine }
{
    let path = path_of(alloc, form.path)?;
    match form.eq {
        Some(value) => {
            let doc = doc_of(alloc, value)?;
            Ok(Ask {
                path,
                eq: Some(doc),
            })
        }
        None => Ok(Ask { path, eq: None }),
    }
}

fn path_of(alloc: Global, values: &Vec<Value>) -> Result<PathExpr, AllocError>
    requires { IsTrue (is_whole (array (items_view values.now.items))) }
    ensures { IfOk result
        (λ path. path ≡ path_meant (document_of (array (items_view values.now.items)))) }
{
    let mut hops = Vec::with_capacity(alloc, values.len())?;
    for value in values {
        hops.push(hop_of(alloc, value)?)?;
    }
    Ok(PathExpr::of(hops))
}

fn hop_of(alloc: Global, value: &Value) -> Result<Hop, AllocError>
    requires { IsTrue (is_whole (view value.now)) }
    ensures { IfOk result
        (λ hop. option_map hop_meant (document_of (view value.now)) ≡ Some (hop_of hop)) }
{
    match value {
        Value::Number(number) => Ok(Hop::At(number.as_i64().unwrap())),
        Value::String(text) => Ok(Hop::Name(Text::copy_of(alloc, text.as_str())?)),
        _ => Ok(Hop::Any),
    }
}
