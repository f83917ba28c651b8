//! Replies, as they are written.

use std::alloc::Global;
use std::str;
use tc_bytes::Bytes;
use tc_command::{Counts, Reply, Row, Rows, Schemas, put_line};

/// The line of a reply that goes by this name here.
pub(crate) fn written(alloc: Global, name: &str) -> Option<String> {
    line_of(alloc, &reply_named(alloc, name)?)
}

/// The line of a reply.
pub(crate) fn line_of(alloc: Global, reply: &Reply) -> Option<String> {
    let mut line = Vec::new(alloc);
    put_line(reply, &mut line).ok()?;
    String::from_str(alloc, str::from_utf8(&line).ok()?).ok()
}

fn reply_named(alloc: Global, name: &str) -> Option<Reply> {
    match name {
        "rows" => rows(alloc),
        "no_rows" => Some(Reply::Rows(Rows::of(Vec::new(alloc)))),
        "schemas" => schemas(alloc),
        "collected" => collected(alloc),
        "got" => got(alloc),
        _ => short_reply(name),
    }
}

fn short_reply(name: &str) -> Option<Reply> {
    match name {
        "inserted" => Some(Reply::Upserted {
            id: 9_223_372_036_854_775_807,
            replaced: false,
        }),
        "replaced" => Some(Reply::Upserted {
            id: 0,
            replaced: true,
        }),
        "deleted" => Some(Reply::Deleted {
            id: 10,
            found: true,
        }),
        "missed" => Some(Reply::Deleted {
            id: 1,
            found: false,
        }),
        "nothing" => Some(Reply::Got { id: 2, text: None }),
        "flushed" => Some(Reply::Flushed),
        "started" => Some(Reply::Started),
        _ => None,
    }
}

fn bytes(alloc: Global, text: &str) -> Option<Bytes> {
    Some(Bytes::of(Vec::from_slice(alloc, text.as_bytes()).ok()?))
}

fn got(alloc: Global) -> Option<Reply> {
    let text = Some(bytes(alloc, "{\"a\":true,\"id\":1,\"z\":[-1,null]}")?);
    Some(Reply::Got { id: 1, text })
}

fn rows(alloc: Global) -> Option<Reply> {
    let mut rows = Vec::new(alloc);
    rows.push(row(alloc)?).ok()?;
    Some(Reply::Rows(Rows::of(rows)))
}

fn row(alloc: Global) -> Option<Row> {
    Some(Row {
        id: 15,
        text: bytes(alloc, "{\"id\":15,\"values\":[14,{\"b\":\"\\n\"}]}")?,
    })
}

fn collected(alloc: Global) -> Option<Reply> {
    Some(Reply::Collected {
        rows: Rows::of(Vec::new(alloc)),
        upto: Counts::of(vec![in alloc; 3, 0].ok()?),
    })
}

fn schemas(alloc: Global) -> Option<Reply> {
    let text = bytes(alloc, "{\"count\":0}")?;
    Some(Reply::Schemas(Schemas::of(vec![in alloc; text].ok()?)))
}
