//! What a lens sees of each publication.

ghost use Rattle.std.specs.Prelude.{◌≡◌, ◌<◌, All, IfOk, length};
ghost use Rattle.tc_log.specs.Layout.{number_end};
ghost use Rattle.tc_log.specs.Writes.{IsWrite};
ghost use Rattle.tc_view.specs.Changes.{writes_in};
ghost use Rattle.tc_view.specs.Places.{awaited_by, IsLensOf, IsReady};

use std::alloc::{AllocError, Global};
use std::fmt::Write as _;
use std::sync::{Arc, Wait};
use tc_bytes::{Bytes, Memory};
use tc_log::Write;
use tc_record::is_stored_record;
use tc_store::{Frozen, MemFrozen};
use tc_view::{Change, Chunk, Key, Lens, Publisher, Rooms};

// The record of `{}`.
const RECORD: [u8; 25] = [
    0, 0, 0, 0x19, 0, 0, 0, 0, 2, 0, 0, 0, 0, 0, 0, 0, 0, 0, 0, 0, 0, 0, 0, 6, 7,
];

/// Of how many writes each of ten snapshots is, before each of which one more write was published, and that of one after
/// them, which begins with a note.
pub(crate) fn answer_of(rt: &(impl AllocGlobal + Wait)) -> Option<String> {
    let mut text = String::from_str(rt.alloc(), "upto").ok()?;
    for upto in seen(rt).ok()? {
        write!(text, " {upto}").ok()?;
    }
    Some(text)
}

/// Whether a lens is given while another one is there, and whether one is given once that is gone.
pub(crate) fn places(rt: &(impl AllocGlobal + Wait)) -> Option<String> {
    let alloc = rt.alloc();
    let mut publisher: Publisher<MemFrozen> = Publisher::new(rt, alloc).ok()?;
    let found = given(&mut publisher);
    publisher.end(rt);
    let (second, later) = found?;
    format!(in alloc; "while one is there {second}, once it is gone {later}").ok()
}

fn given<F: Frozen>(publisher: &mut Publisher<F>) -> Option<(bool, bool)>
    requires { (k : Key) × IsReady k publisher.old }
{
    let first = publisher.lens().ok()?;
    let second = publisher.lens().is_ok();
    drop(first);
    let later = publisher.lens().is_ok();
    Some((second, later))
}

fn seen<R: AllocGlobal + Wait>(rt: &R) -> Result<Vec<u64>, Memory> {
    let alloc = rt.alloc();
    let mut publisher: Publisher<MemFrozen> = Publisher::new(rt, alloc)?;
    let seen = match publisher.lens() {
        Ok(mut lens) => rounds(rt, alloc, &mut publisher, &mut lens),
        Err(fault) => Err(fault),
    };
    publisher.end(rt);
    seen
}

// The numbers of ten snapshots without a note, each after one more write was published, and of one that begins with a note.
fn rounds<F: Frozen, R: Wait>(
    rt: &R,
    alloc: Global,
    publisher: &mut Publisher<F>,
    lens: &mut Lens<F>,
) -> Result<Vec<u64>, Memory>
    requires { (k : Key) × IsReady k publisher.old × IsLensOf k lens.old × ((awaited_by publisher.old).upto ≡ 0) }
{
    let mut seen = Vec::new(alloc);
    for round in 0..10 {
        publisher.append(Change::Writes(one(alloc, round)?))?;
        publisher.publish(rt)?;
        seen.push(lens.snapshot()?.upto())?;
    }
    let note = publisher.tell()?;
    lens.learn(note)?;
    seen.push(lens.snapshot()?.upto())?;
    Ok(seen)
}

// A chunk of one upsert.
fn one(alloc: Global, key: u64) -> Result<Arc<Chunk>, Memory>
    requires { key < number_end }
    ensures count { IfOk result (λ chunk. length (writes_in chunk) ≡ 1) }
    ensures stored { IfOk result (λ chunk. All IsWrite (writes_in chunk)) }
{
    let record = Vec::from_slice(alloc, &RECORD)?;
    if !is_stored_record(&record) {
        return Err(AllocError);
    }
    let mut writes = Vec::new(alloc);
    writes.push(Write::Upsert {
        key,
        bytes: Bytes::of(record),
    })?;
    Ok(Arc::new(alloc, Chunk::of(alloc, &mut Rooms::new(alloc), &writes)?)?)
}
