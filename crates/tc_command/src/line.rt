//! The command that a line asks for.

ghost use Rattle.std.specs.Prelude.{◌≡◌, IfOk, IfErr, IfSome, option_map};
ghost use Rattle.serde_json.specs.View.{view};
ghost use Rattle.tc_model.specs.Json.{json_of};
ghost use Rattle.tc_request_model.specs.Request.{request_of, request_if_json, request_if_known, form_of};
ghost use Rattle.tc_command.specs.Commands.{request_by, IsLawful, IsOfLine};

use crate::commands::Command;
use crate::conversions::command_of;
use crate::forms::form_of;
use crate::keyed_lines::keyed_in;
use crate::refusals::{ParseFault, Refusal};
use serde_json::Value;
use std::alloc::{AllocError, Global};
use std::str;
use tc_json::is_whole;

/// Bytes of a line before its line feed, at most.
pub const MAX_LINE: usize = 1_048_576;

/// The command that a line asks for. A line without a line feed is read as JSON (RFC 8259, by `serde_json`), and is
/// refused for the first of the causes that it has, in the order of their numbers.
pub fn parse(alloc: Global, line: &[u8]) -> Result<Command, ParseFault>
    ensures asked { IfSome (request_by result) (λ r. request_of line.now ≡ r) }
    ensures lawful { IfOk result IsLawful }
    ensures of_line { IfErr result IsOfLine }
{
    if line.len() > MAX_LINE {
        return Err(ParseFault::Refused(Refusal::Oversized));
    }
    match keyed_in(line) {
        Some(command) => Ok(command),
        None => command_read(alloc, line),
    }
}

// The command that a line asks for, by its JSON value.
fn command_read(alloc: Global, line: &[u8]) -> Result<Command, ParseFault>
    ensures asked { IfSome (request_by result) (λ r. request_if_json (json_of line.now) ≡ r) }
    ensures lawful { IfOk result IsLawful }
    ensures of_line { IfErr result IsOfLine }
{
    match value_of(alloc, line)? {
        Some(value) => command_in(alloc, &value),
        None => Err(ParseFault::Refused(Refusal::Malformed)),
    }
}

// The JSON value that a line spells, or `None` exactly where it spells none.
fn value_of(alloc: Global, line: &[u8]) -> Result<Option<Value>, AllocError>
    ensures { IfOk result (λ v. option_map view v ≡ json_of line.now) }
{
    let Ok(text) = str::from_utf8(line) else {
        return Ok(None);
    };
    match Value::from_str(alloc, text) {
        Ok(value) => Ok(Some(value)),
        Err(error) => if error.is_memory() {
            Err(AllocError)
        } else {
            Ok(None)
        },
    }
}

// The command of a value. Its form is known before its numbers are looked at.
fn command_in(alloc: Global, value: &Value) -> Result<Command, ParseFault>
    ensures asked { IfSome (request_by result)
        (λ r. request_if_known (view value.now) (form_of (view value.now)) ≡ r) }
    ensures lawful { IfOk result IsLawful }
    ensures of_line { IfErr result IsOfLine }
{
    let Some(form) = form_of(value) else {
        return Err(ParseFault::Refused(Refusal::Unknown));
    };
    if is_whole(value) {
        command_of(alloc, form)
    } else {
        Err(ParseFault::Refused(Refusal::NotWhole))
    }
}
