//! The replies of partitions, put together in the order of the window.

ghost use Rattle.std.specs.Prelude.{◌≡◌, ◌<◌, ◌≤◌, ◌∷◌, ◌++◌, false, All, IfNone, IfOk, IfSome, IsTrue, OnOk, fold, map, option_map};
ghost use Rattle.tc_model.specs.Keyed.{Ascends, Keyed, on_value};
ghost use Rattle.tc_request_model.specs.Rendered.{Rendered};
ghost use Rattle.tc_command.specs.Replies.{rendered_of};
ghost use Rattle.tc_route.specs.Gathered.{gathered_rendered, with_rendered, beside_rendered, joined_rendered};
ghost use Rattle.tc_route.specs.Meaning.{placed_of, rendered_in};
ghost use Rattle.tc_route.specs.Merging.{merging, starts_below};

use crate::placed::{Placed, Replies};
use crate::rows::joined_rows;
use std::alloc::Global;
use std::collections::{BTreeMap, VecDeque};
use tc_bytes::Memory;
use tc_command::Reply;

/// The replies of all parts in ascending place. Where several parts have rows at one place, these are one reply, with the
/// rows in ascending id; of other replies at one place the first part's stays. Errs only for want of memory.
pub fn gather(alloc: Global, parts: Vec<Replies>) -> Result<Replies, Memory>
    ensures { IfOk result (λ replies. rendered_in replies ≡ gathered_rendered (map rendered_in parts.items)) }
{
    let mut all = Vec::new(alloc);
    for part in parts {
        all = with_part(alloc, all, part.into_inner())?;
    }
    Ok(Replies::of(all))
}

// The replies with those of a further part. The first part's vector stays as it is.
fn with_part(alloc: Global, all: Vec<Placed>, part: Vec<Placed>) -> Result<Vec<Placed>, Memory>
    requires { Ascends (rendered_in all.items) }
    ensures { IfOk result (λ replies. rendered_in replies.items ≡ fold with_rendered (rendered_in all.items) (rendered_in part.items)) }
{
    if !ascends(part.as_slice()) {
        return gather_by_map(alloc, all, part);
    }
    if all.is_empty() {
        return Ok(part);
    }
    merge(alloc, all, part)
}

// Whether the places of replies strictly ascend.
fn ascends(replies: &[Placed]) -> bool
    ensures { IsTrue result → Ascends (rendered_in replies.now) }
{
    let mut least = 0;
    for placed in replies {
        let at = u64::from(placed.at);
        if at < least {
            return false;
        }
        least = at + 1;
    }
    true
}

// The replies with those of a further part, whose places need not ascend.
fn gather_by_map(
    alloc: Global,
    first: Vec<Placed>,
    part: Vec<Placed>,
) -> Result<Vec<Placed>, Memory>
    requires { Ascends (rendered_in first.items) }
    ensures { IfOk result (λ replies. rendered_in replies.items ≡ fold with_rendered (rendered_in first.items) (rendered_in part.items)) }
{
    let mut all = BTreeMap::new(alloc);
    take_in(alloc, first, &mut all)?;
    take_in(alloc, part, &mut all)?;
    let mut replies = Vec::with_capacity(alloc, all.len())?;
    for (at, reply) in all {
        replies.push(Placed { at, reply })?;
    }
    Ok(replies)
}

// Puts the replies of a part to those of the parts before it.
fn take_in(alloc: Global, part: Vec<Placed>, all: &mut BTreeMap<u32, Reply>) -> Result<(), Memory>
    requires { Ascends (map (on_value rendered_of) all.old.entries) }
    ensures { OnOk result (map (on_value rendered_of) all.new.entries ≡ fold with_rendered (map (on_value rendered_of) all.old.entries) (map placed_of part.items)) }
{
    for placed in part {
        put(alloc, placed, all)?;
    }
    Ok(())
}

fn put(alloc: Global, placed: Placed, all: &mut BTreeMap<u32, Reply>) -> Result<(), Memory>
    requires { Ascends (map (on_value rendered_of) all.old.entries) }
    ensures { OnOk result (map (on_value rendered_of) all.new.entries ≡ with_rendered (map (on_value rendered_of) all.old.entries) (placed_of placed)) }
{
    let first = all.remove(&placed.at);
    let reply = beside(alloc, first, placed.reply)?;
    drop(all.insert(placed.at, reply)?);
    Ok(())
}

// The replies of a part merged with those of the parts before it in one walk over both.
fn merge(alloc: Global, first: Vec<Placed>, part: Vec<Placed>) -> Result<Vec<Placed>, Memory>
    requires first { Ascends (rendered_in first.items) }
    requires part { Ascends (rendered_in part.items) }
    ensures { IfOk result (λ replies. rendered_in replies.items ≡ fold with_rendered (rendered_in first.items) (rendered_in part.items)) }
{
    let mut merged = Vec::with_capacity(alloc, first.len() + part.len())?;
    let mut left = VecDeque::from_vec(first);
    for placed in part {
        move_below(u64::from(placed.at), &mut left, &mut merged)?;
        put_beside(alloc, placed, &mut left, &mut merged)?;
    }
    move_all(left, &mut merged)?;
    Ok(merged)
}

// Moves the replies below a place.
fn move_below(
    limit: u64,
    left: &mut VecDeque<Placed>,
    merged: &mut Vec<Placed>,
) -> Result<(), Memory>
    requires { Ascends (rendered_in left.old.items) }
    ensures ascends { OnOk result (Ascends (rendered_in left.new.items)) }
    ensures below { OnOk result (All (λ a. limit ≤ a.0) (rendered_in left.new.items)) }
    ensures moved { OnOk result ((more : Keyed Rendered) → All (λ a. limit ≤ a.0) more → merging merged.new.items left.new.items more ≡ merging merged.old.items left.old.items more) }
{
    while let Some(placed) = pop_below(limit, left) {
        merged.push(placed)?;
    }
    Ok(())
}

// Puts a reply after those that are merged, joined with the one at its place, if one is left.
fn put_beside(
    alloc: Global,
    placed: Placed,
    left: &mut VecDeque<Placed>,
    merged: &mut Vec<Placed>,
) -> Result<(), Memory>
    requires ascends { Ascends (rendered_in left.old.items) }
    requires below { All (λ a. placed.at ≤ a.0) (rendered_in left.old.items) }
    ensures ascends { OnOk result (Ascends (rendered_in left.new.items)) }
    ensures put { OnOk result ((more : Keyed Rendered) → All (λ a. placed.at < a.0) more → merging merged.new.items left.new.items more ≡ merging merged.old.items left.old.items (placed_of placed ∷ more)) }
{
    let at = placed.at;
    let popped = pop_below(u64::from(at) + 1, left);
    let reply = beside(alloc, reply_of(popped), placed.reply)?;
    merged.push(Placed { at, reply })?;
    Ok(())
}

fn reply_of(placed: Option<Placed>) -> Option<Reply>
    ensures { option_map rendered_of result ≡ option_map (λ placed. rendered_of placed.reply) placed }
{
    match placed {
        Some(placed) => Some(placed.reply),
        None => None,
    }
}

fn move_all(left: VecDeque<Placed>, merged: &mut Vec<Placed>) -> Result<(), Memory>
    ensures { OnOk result (merged.new.items ≡ merged.old.items ++ left.items) }
{
    for placed in left {
        merged.push(placed)?;
    }
    Ok(())
}

// Takes the first reply out, if it is below a place.
fn pop_below(limit: u64, left: &mut VecDeque<Placed>) -> Option<Placed>
    ensures some { IfSome result (λ placed. (placed.at < limit) × (left.old.items ≡ placed ∷ left.new.items)) }
    ensures none { IfNone result ((left.new.items ≡ left.old.items) × (starts_below limit left.old.items ≡ false)) }
{
    if starts_below(limit, left) {
        left.pop_front()
    } else {
        None
    }
}

fn starts_below(limit: u64, left: &VecDeque<Placed>) -> bool
    ensures { result ≡ starts_below limit left.now.items }
{
    match left.front() {
        Some(first) => u64::from(first.at) < limit,
        None => false,
    }
}

// A reply beside the one of an earlier part, if there is one.
fn beside(alloc: Global, first: Option<Reply>, reply: Reply) -> Result<Reply, Memory>
    ensures { IfOk result (λ put. rendered_of put ≡ beside_rendered (option_map rendered_of first) (rendered_of reply)) }
{
    match first {
        Some(first) => join(alloc, first, reply),
        None => Ok(reply),
    }
}

// Two replies to one command, of two parts.
fn join(alloc: Global, first: Reply, more: Reply) -> Result<Reply, Memory>
    ensures { IfOk result (λ reply. rendered_of reply ≡ joined_rendered (rendered_of first) (rendered_of more)) }
{
    match first {
        Reply::Rows(rows) => match more {
            Reply::Rows(more) => Ok(Reply::Rows(joined_rows(alloc, rows, more)?)),
            _other => Ok(Reply::Rows(rows)),
        },
        other => Ok(other),
    }
}
