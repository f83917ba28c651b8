//! What is counted of the documents that are live, and one document more.

ghost use Rattle.std.specs.Prelude.{◌≡◌, ◌≤◌, ◌<◌, ◌+◌, ◌^◌, IfSome, OnOk, false, length, true};
ghost use Rattle.tc_schema_model.specs.Counted.{total_at, IsCanonical};
ghost use Rattle.tc_schema_model.specs.Occurrences.{Path};
ghost use Rattle.tc_audit.specs.Stored.{IsStoredIn};
ghost use Rattle.tc_audit.specs.Told.{document_in};
ghost use Rattle.tc_audit.specs.Waiting.{all_counted, IsOfShape, IsSound};
ghost use Rattle.tc_audit.specs.Walking.{IsMoreBy};

use crate::shapes::Shapes;
use std::alloc::Global;
use tc_bytes::Memory;
use tc_compact::{document_meant, names_agree};
use tc_infer::add_known;
use tc_names::Names;
use tc_record::RecordRef;
use tc_schema::Schema;

/// No more documents of one shape wait.
const MOST_WAITING: u64 = 0x1_0000_0000;

/// The schema of the documents that are live after the entries so far, under the names of their component, but for those that
/// wait, by their shapes, to be counted; and how many of these entries have a document.
pub(crate) struct Recount {
    pub(crate) schema: Schema,
    pub(crate) names: Names,
    pub(crate) shapes: Shapes,
    /// Whether documents may wait. Once something was taken off, none does, as what is taken off has to be counted.
    pub(crate) waits: bool,
    pub(crate) gained: u64,
}

impl Drop for Recount {
    /// One call, so that whoever drops a count sees nothing of its parts.
    fn drop(self) {
        let Recount {
            schema,
            names,
            shapes,
            waits: _,
            gained: _,
        } = self;
        drop(schema);
        drop(names);
        drop(shapes);
    }
}

impl Recount {
    /// Nothing of the entries yet, whose records have this form. No shape is known. Takes no memory.
    pub(crate) fn of(alloc: Global, schema: Schema, names: Names, form: u8) -> Recount
        requires canonical { IsCanonical (length names) schema }
        ensures names { result.names ≡ names }
        ensures gained { result.gained ≡ 0 }
        ensures form { result.shapes.form ≡ form }
        ensures sound { IsSound result }
        ensures all { all_counted result ≡ schema }
    {
        Recount {
            schema,
            names,
            shapes: Shapes::new(form, alloc),
            waits: true,
            gained: 0,
        }
    }

    /// The schema. Takes no memory.
    pub(crate) fn into_schema(self) -> Schema
        ensures { result ≡ self.schema }
    {
        let Recount {
            schema,
            names: _,
            shapes: _,
            waits: _,
            gained: _,
        } = self;
        schema
    }

    /// Counts the documents that wait. From then on none waits any more. Errs only for want of memory.
    pub(crate) fn settle(&mut self) -> Result<(), Memory>
        requires sound { IsSound self.old }
        requires room { (path : Path) → total_at self.old.names (all_counted self.old) path < 2 ^ 64 }
        ensures names { self.new.names ≡ self.old.names }
        ensures gained { self.new.gained ≡ self.old.gained }
        ensures form { self.new.shapes.form ≡ self.old.shapes.form }
        ensures sound { OnOk result (IsSound self.new) }
        ensures settled { OnOk result (self.new.schema ≡ all_counted self.old) }
        ensures none { OnOk result (self.new.waits ≡ false) }
    {
        if self.waits {
            self.shapes.settle(&self.names, &mut self.schema)?;
            self.waits = false;
        }
        Ok(())
    }
}

/// Counts the document of a stored record once more, whose shape may be known. Its names are all known. Errs only for want of
/// memory.
pub(crate) fn count_record(
    of: &RecordRef<'_>,
    shape: Option<usize>,
    recount: &mut Recount,
) -> Result<(), Memory>
    requires stored { IsStoredIn of.now.form recount.old.names of.now.bytes }
    requires form { of.now.form ≡ recount.old.shapes.form }
    requires shape { IfSome shape (IsOfShape recount.old.names of.now recount.old.shapes.known.items) }
    requires sound { IsSound recount.old }
    requires room { (path : Path) → total_at recount.old.names (all_counted recount.old) path + 2 ^ 30 < 2 ^ 64 }
    ensures names { OnOk result (recount.new.names ≡ recount.old.names) }
    ensures gained { recount.new.gained ≡ recount.old.gained }
    ensures form { recount.new.shapes.form ≡ recount.old.shapes.form }
    ensures sound { OnOk result (IsSound recount.new) }
    ensures canonical { OnOk result (IsCanonical (length recount.old.names) (all_counted recount.new)) }
    ensures room { OnOk result ((path : Path) → total_at recount.old.names (all_counted recount.new) path ≤ total_at recount.old.names (all_counted recount.old) path + 2 ^ 30) }
    ensures counted { OnOk result (IsMoreBy (document_in recount.old.names of.now.bytes) recount.old.names (all_counted recount.old) (all_counted recount.new)) }
{
    names_agree();
    document_meant();
    // that the names are a dictionary
    let _known = recount.names.len();
    count_or_wait(of, shape, recount)
}

/// The same: where documents may wait, this one does.
fn count_or_wait(
    of: &RecordRef<'_>,
    shape: Option<usize>,
    recount: &mut Recount,
) -> Result<(), Memory>
    requires stored { IsStoredIn of.now.form recount.old.names of.now.bytes }
    requires form { of.now.form ≡ recount.old.shapes.form }
    requires shape { IfSome shape (IsOfShape recount.old.names of.now recount.old.shapes.known.items) }
    requires sound { IsSound recount.old }
    requires room { (path : Path) → total_at recount.old.names (all_counted recount.old) path + 2 ^ 30 < 2 ^ 64 }
    ensures names { OnOk result (recount.new.names ≡ recount.old.names) }
    ensures gained { recount.new.gained ≡ recount.old.gained }
    ensures form { recount.new.shapes.form ≡ recount.old.shapes.form }
    ensures sound { OnOk result (IsSound recount.new) }
    ensures counted { OnOk result (IsMoreBy (document_in recount.old.names of.now.bytes) recount.old.names (all_counted recount.old) (all_counted recount.new)) }
{
    if !recount.waits {
        return count_now(of, recount);
    }
    match shape {
        Some(at) => count_again(of, at, recount),
        None => count_first(of, recount),
    }
}

/// One document more waits, whose shape is known.
fn count_again(of: &RecordRef<'_>, at: usize, recount: &mut Recount) -> Result<(), Memory>
    requires stored { IsStoredIn of.now.form recount.old.names of.now.bytes }
    requires shape { IsOfShape recount.old.names of.now recount.old.shapes.known.items at }
    requires waits { recount.old.waits ≡ true }
    requires sound { IsSound recount.old }
    requires room { (path : Path) → total_at recount.old.names (all_counted recount.old) path + 2 ^ 30 < 2 ^ 64 }
    ensures names { OnOk result (recount.new.names ≡ recount.old.names) }
    ensures gained { recount.new.gained ≡ recount.old.gained }
    ensures form { recount.new.shapes.form ≡ recount.old.shapes.form }
    ensures sound { OnOk result (IsSound recount.new) }
    ensures counted { OnOk result (IsMoreBy (document_in recount.old.names of.now.bytes) recount.old.names (all_counted recount.old) (all_counted recount.new)) }
{
    if recount.shapes.known[at].waiting >= MOST_WAITING {
        return count_now(of, recount);
    }
    recount.shapes.known[at].waiting += 1;
    Ok(())
}

/// One document more waits, whose shape is met for the first time, if there is room to know it.
fn count_first(of: &RecordRef<'_>, recount: &mut Recount) -> Result<(), Memory>
    requires stored { IsStoredIn of.now.form recount.old.names of.now.bytes }
    requires form { of.now.form ≡ recount.old.shapes.form }
    requires waits { recount.old.waits ≡ true }
    requires sound { IsSound recount.old }
    requires room { (path : Path) → total_at recount.old.names (all_counted recount.old) path + 2 ^ 30 < 2 ^ 64 }
    ensures names { OnOk result (recount.new.names ≡ recount.old.names) }
    ensures gained { recount.new.gained ≡ recount.old.gained }
    ensures form { recount.new.shapes.form ≡ recount.old.shapes.form }
    ensures sound { OnOk result (IsSound recount.new) }
    ensures counted { OnOk result (IsMoreBy (document_in recount.old.names of.now.bytes) recount.old.names (all_counted recount.old) (all_counted recount.new)) }
{
    document_meant();
    // that the names are a dictionary
    let _known = recount.names.len();
    if !recount.shapes.has_room(of) {
        return count_now(of, recount);
    }
    recount.shapes.learn(of)
}

/// Counts the document of a stored record at once.
fn count_now(of: &RecordRef<'_>, recount: &mut Recount) -> Result<(), Memory>
    requires stored { IsStoredIn of.now.form recount.old.names of.now.bytes }
    requires sound { IsSound recount.old }
    requires room { (path : Path) → total_at recount.old.names (all_counted recount.old) path + 2 ^ 30 < 2 ^ 64 }
    ensures names { OnOk result (recount.new.names ≡ recount.old.names) }
    ensures gained { recount.new.gained ≡ recount.old.gained }
    ensures form { recount.new.shapes.form ≡ recount.old.shapes.form }
    ensures sound { OnOk result (IsSound recount.new) }
    ensures counted { OnOk result (IsMoreBy (document_in recount.old.names of.now.bytes) recount.old.names (all_counted recount.old) (all_counted recount.new)) }
{
    add_stored(of.again(), &mut recount.schema, &recount.names)
}

/// Counts the document of a stored record once more in a schema. Its names are all known.
fn add_stored(of: RecordRef<'_>, schema: &mut Schema, names: &Names) -> Result<(), Memory>
    requires stored { IsStoredIn of.form names.now of.bytes }
    requires canonical { IsCanonical (length names.now) schema.old }
    requires room { (path : Path) → total_at names.now schema.old path + 2 ^ 30 < 2 ^ 64 }
    ensures canonical { OnOk result (IsCanonical (length names.now) schema.new) }
    ensures room { OnOk result ((path : Path) → total_at names.now schema.new path ≤ total_at names.now schema.old path + 2 ^ 30) }
    ensures counted { OnOk result (IsMoreBy (document_in names.now of.entry.bytes) names.now schema.old schema.new) }
{
    names_agree();
    document_meant();
    // that the names are a dictionary
    let _known = names.len();
    add_known(schema, names, of)
}
