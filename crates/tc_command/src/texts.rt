//! The line of a reply: compact JSON, whose members stand in ascending order, and a line feed.

ghost use Rattle.std.specs.Prelude.{◌≡◌, ◌++◌, OnOk};
ghost use Rattle.tc_request_model.specs.Reply.{reply_line};
ghost use Rattle.tc_request_model.specs.Reply as meant;
ghost use Rattle.tc_request_model.specs.Rendered.{rendered_line};
ghost use Rattle.tc_command.specs.Refusals.{refusal_of};
ghost use Rattle.tc_command.specs.Replies.{rendered_of};

use crate::document_lines::{put_collected_line, put_found_line, put_rows_line, put_schemas_line};
use crate::refusals::Refusal;
use crate::replies::Reply;
use itoa::Buffer;
use std::alloc::AllocError;

/// Puts the line of a reply, with its line feed. Errs only for want of memory, and then leaves some first part of the line.
pub fn put_line(reply: &Reply, out: &mut Vec<u8>) -> Result<(), AllocError>
    ensures { OnOk result (out.new.items ≡ out.old.items ++ rendered_line (rendered_of reply.now)) }
{
    match reply {
        Reply::Upserted { id, replaced } => put_upserted(*id, *replaced, out),
        Reply::Deleted { id, found } => put_deleted(*id, *found, out),
        Reply::Got { id: _, text } => put_found_line(text, out),
        Reply::Rows(rows) => put_rows_line(rows, out),
        Reply::Flushed => put_flushed(out),
        Reply::Schemas(schemas) => put_schemas_line(schemas, out),
        Reply::Started => put_started(out),
        Reply::Collected { rows, upto } => put_collected_line(rows, upto, out),
        Reply::Refused(refusal) => put_refused(*refusal, out),
    }
}

// ---- short replies, of which each write has one

fn put_upserted(id: u64, replaced: bool, out: &mut Vec<u8>) -> Result<(), AllocError>
    ensures { OnOk result (out.new.items ≡ out.old.items ++ reply_line (meant.upserted id replaced)) }
{
    let mut digits = Buffer::new();
    let id = digits.format(id).as_bytes();
    if replaced {
        put_three(b"{\"id\":", id, b",\"replaced\":true}\n", out)
    } else {
        put_three(b"{\"id\":", id, b",\"replaced\":false}\n", out)
    }
}

fn put_deleted(id: u64, found: bool, out: &mut Vec<u8>) -> Result<(), AllocError>
    ensures { OnOk result (out.new.items ≡ out.old.items ++ reply_line (meant.deleted id found)) }
{
    let mut digits = Buffer::new();
    let id = digits.format(id).as_bytes();
    if found {
        put_three(b"{\"found\":true,\"id\":", id, b"}\n", out)
    } else {
        put_three(b"{\"found\":false,\"id\":", id, b"}\n", out)
    }
}

fn put_flushed(out: &mut Vec<u8>) -> Result<(), AllocError>
    ensures { OnOk result (out.new.items ≡ out.old.items ++ reply_line meant.flushed) }
{
    put_three(b"{\"flush\":", b"\"done\"", b"}\n", out)
}

fn put_started(out: &mut Vec<u8>) -> Result<(), AllocError>
    ensures { OnOk result (out.new.items ≡ out.old.items ++ reply_line meant.started) }
{
    put_three(b"{\"scan\":", b"\"started\"", b"}\n", out)
}

fn put_refused(refusal: Refusal, out: &mut Vec<u8>) -> Result<(), AllocError>
    ensures { OnOk result (out.new.items ≡ out.old.items ++ reply_line (meant.turned_down (refusal_of refusal))) }
{
    put_three(b"{\"refused\":\"", refusal.name().as_bytes(), b"\"}\n", out)
}

// Three pieces, one after the other.
fn put_three(first: &[u8], second: &[u8], third: &[u8], out: &mut Vec<u8>) -> Result<(), AllocError>
    ensures { OnOk result (out.new.items ≡ out.old.items ++ (first.now ++ (second.now ++ third.now))) }
{
    out.extend_from_slice(first)?;
    out.extend_from_slice(second)?;
    out.extend_from_slice(third)
}
