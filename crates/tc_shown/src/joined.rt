//! The rows of several partitions, in ascending key.

ghost use Rattle.std.specs.Prelude.{◌≡◌, ◌≤◌, IfOk, length};
ghost use Rattle.tc_route.specs.Meaning.{rendered_in};
ghost use Rattle.tc_shown.specs.Joined.{alone, first_rows, joined};

use std::alloc::Global;
use tc_bytes::Memory;
use tc_command::{Reply, Rows};
use tc_route::{Placed, Replies, gather};

/// The rows of all partitions in ascending key, as a window puts them together that asks each partition. Errs only for want of memory.
pub(crate) fn joined_rows(alloc: Global, found: Vec<Rows>) -> Result<Rows, Memory>
    ensures { IfOk result (λ rows. rows ≡ joined found.items) }
{
    let mut parts = Vec::with_capacity(alloc, found.len())?;
    for rows in found {
        parts.push(reply_of(alloc, rows)?)?;
    }
    let replies = gather(alloc, parts)?;
    Ok(rows_in(alloc, replies))
}

/// The reply of these rows, by itself.
fn reply_of(alloc: Global, rows: Rows) -> Result<Replies, Memory>
    ensures { IfOk result (λ replies. rendered_in replies ≡ alone rows) }
{
    let mut replies = Vec::new(alloc);
    replies.push(Placed {
        at: 0,
        reply: Reply::Rows(rows),
    })?;
    Ok(Replies::of(replies))
}

/// The rows of the only reply, if there is one.
fn rows_in(alloc: Global, replies: Replies) -> Rows
    requires one { length (rendered_in replies) ≤ 1 }
    ensures { result ≡ first_rows (rendered_in replies) }
{
    let mut replies = replies.into_inner();
    match replies.pop() {
        Some(
            Placed {
                at: _,
                reply: Reply::Rows(rows),
            },
        ) => rows,
        _none => Rows::of(Vec::new(alloc)),
    }
}
