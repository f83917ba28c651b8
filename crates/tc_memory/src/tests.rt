//! A table of many entries, and what threads may share.

ghost use Rattle.std.specs.Prelude.{◌≡◌, IfOk, codes, pos};
ghost use Rattle.tc_model.specs.Tree.{leaf, object, member, no_members};
ghost use Rattle.tc_model.specs.Document.{integer};
ghost use Rattle.tc_value.specs.Meaning.{tree_of};
ghost use Rattle.tc_model.specs.Stored.{IsKeyless};
ghost use Rattle.tc_record.specs.StoredRecord.{IsStoredRecord};

use crate::{Held, Memtable};
use std::alloc::{AllocError, Global};
use std::test::Fail;
use tc_bytes::Bytes;
use tc_record::{encode, size};
use tc_value::{Doc, MAX_DEPTH, Member, Members, Shape, Text};

/// `{"v":1}`
fn document(alloc: Global) -> Result<Doc, AllocError>
    ensures { IfOk result (λ doc. tree_of doc ≡ object (member (codes "v") (leaf (integer (pos 1))) no_members)) }
{
    let mut members = Vec::new(alloc);
    members.push(Member {
        name: Text::copy_of(alloc, "v")?,
        value: Doc::Int(1),
    })?;
    Ok(Doc::Object(Members::of(members)))
}

/// The record of a document that is a short object without a member `id`.
fn stored(alloc: Global, doc: &Doc) -> Result<Bytes, AllocError>
    requires { IsKeyless (tree_of doc.now) }
    ensures { IfOk result IsStoredRecord }
{
    if !doc.nests_within(MAX_DEPTH) {
        return Err(AllocError);
    }
    match size(doc) {
        Some(_len) => encode(alloc, doc),
        None => Err(AllocError),
    }
}

/// The record of `{"v":1}`.
fn record(alloc: Global) -> Result<Bytes, AllocError>
    ensures { IfOk result IsStoredRecord }
{
    let doc = document(alloc)?;
    stored(alloc, &doc)
}

/// Takes what threads may share.
fn share<T: Send + Sync>(_value: &T) {}

/// A table with 100,000 keys, of which the even ones have a document below it.
fn table_of_many(alloc: Global) -> Result<Memtable, Fail> {
    let mut table = Memtable::new(alloc);
    for number in 0..100_000u64 {
        let key = number * 7_919 % 100_000;
        let below = if key % 2 == 0 { Some(Shape::Int) } else { None };
        table.upsert(key, record(alloc)?, below)?;
    }
    Ok(table)
}

/// Of the keys below 50,000 the odd ones leave, and the even ones stay as gone.
#[test]
fn holds_many_entries(rt: HostRuntime) -> Result<(), Fail> {
    let mut table = table_of_many(rt.alloc())?;
    assert_eq!(rt; table.len(), 100_000);
    for key in 0..50_000u64 {
        table.delete(key, Some(Shape::Text))?;
    }
    assert_eq!(rt; table.len(), 75_000);
    assert!(rt; table.has(99_999) && !table.has(100_000));
    assert!(rt; matches!(table.get(0), Some(Held::Gone)));
    assert!(rt; matches!(table.get(99_999), Some(Held::Live(_))));
    share(&table);
    let sealed = table.seal();
    share(&sealed);
    assert_eq!(rt; sealed.entries().size_hint(), (75_000, Some(75_000)));
    assert!(rt; sealed.get(49_999).is_none());
    assert_eq!(rt; sealed.len(), 75_000);
    Ok(())
}
