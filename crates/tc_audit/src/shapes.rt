//! The shapes of documents that were met, and how many documents of each wait to be counted. Most documents of a store have one
//! of a few shapes: these are judged by what is known of the shape, and counted once, by how many they are.

ghost use Rattle.std.specs.Prelude.{◌≡◌, ◌∷◌, ◌++◌, ◌+◌, ◌<◌, ◌^◌, ℕ, [], IfOk, IfSome, IsTrue, OnOk, false, length};
ghost use Rattle.tc_schema_model.specs.Counted.{total_at, IsCanonical};
ghost use Rattle.tc_schema_model.specs.Occurrences.{Path};
ghost use Rattle.tc_audit.specs.Stored.{IsStoredIn};
ghost use Rattle.tc_audit.specs.Waiting.{once_in, with_one, with_waiting, AreKnown, IsKnown, IsOfShape, NoneWaits};

use crate::outline::hash_of;
use crate::stored_like::is_stored_like;
use crate::times::add_times;
use std::alloc::Global;
use std::mem;
use tc_bytes::{Bytes, Memory};
use tc_compact::{document_meant, names_agree};
use tc_infer::add_known;
use tc_names::Names;
use tc_record::RecordRef;
use tc_schema::Schema;

/// The most shapes that are known of a component.
const MOST_SHAPES: usize = 2_048;

/// The most bytes that their records have together, so that memory follows shapes and not documents.
const MOST_BYTES: usize = 262_144;

/// How many places there are for the numbers of shapes.
const PLACES: usize = 8_192;

/// In how many places, one behind the other, the number of a shape may stand.
const TRIES: usize = 8;

/// What stands in a place without a number.
const NONE: u32 = 0xffff_ffff;

/// A shape: the bytes of the record of a document that has it, and how many documents of it wait.
#[derive(Drop)]
pub(crate) struct KnownShape {
    pub(crate) bytes: Bytes,
    pub(crate) waiting: u64,
}

/// The shapes that are known of a component whose records have one form, in the order in which they were met.
pub(crate) struct Shapes {
    pub(crate) form: u8,
    pub(crate) known: Vec<KnownShape>,
    /// The numbers of shapes, by the hash of their outlines. Any number would do: what stands there is looked at.
    places: Vec<u32>,
    /// How many bytes the records of the known shapes have together.
    size: usize,
}

impl Drop for Shapes {
    /// One call, so that whoever drops shapes sees nothing of their parts.
    fn drop(self) {
        let Shapes {
            form: _,
            known,
            places,
            size: _,
        } = self;
        drop(known);
        drop(places);
    }
}

impl Shapes {
    /// None yet. Takes no memory.
    pub(crate) fn new(form: u8, alloc: Global) -> Shapes
        ensures form { result.form ≡ form }
        ensures none { result.known.items ≡ [] }
    {
        Shapes {
            form,
            known: Vec::new(alloc),
            places: Vec::new(alloc),
            size: 0,
        }
    }

    /// The number of a known shape by which a record is seen to spell a document of that shape as it is stored. Takes no memory.
    pub(crate) fn find(&self, of: &RecordRef<'_>, names: &Names) -> Option<usize>
        requires numbered { of.now.named ≡ false }
        requires form { of.now.form ≡ self.now.form }
        requires known { AreKnown self.now.form names.now self.now.known.items }
        ensures { IfSome result (IsOfShape names.now of.now self.now.known.items) }
    {
        let first = hash_of(of);
        for step in 0..TRIES {
            let at = self.number_at(first, step);
            if at >= self.known.len() {
                return None;
            }
            if is_stored_like(of, self.known[at].bytes.as_slice(), names) {
                return Some(at);
            }
        }
        None
    }

    /// The number in a place, or one that no shape has.
    fn number_at(&self, first: u64, step: usize) -> usize {
        let place = place_of(first, step);
        if place < self.places.len() {
            self.places[place] as usize
        } else {
            NONE as usize
        }
    }

    /// Whether there is room to know the shape of one record more.
    pub(crate) fn has_room(&self, of: &RecordRef<'_>) -> bool
        ensures { IsTrue result → length self.now.known.items < 2 ^ 32 }
    {
        self.known.len() < MOST_SHAPES && of.bytes().len() <= MOST_BYTES.saturating_sub(self.size)
    }

    /// Knows the shape of a record, and that one document of it waits. Errs only for want of memory.
    pub(crate) fn learn(&mut self, of: &RecordRef<'_>) -> Result<(), Memory>
        requires { length self.old.known.items < 2 ^ 32 }
        ensures form { self.new.form ≡ self.old.form }
        ensures learned { OnOk result (self.new.known.items ≡ self.old.known.items ++ record { bytes = of.now.bytes; waiting = 1 } ∷ []) }
    {
        let alloc = *self.known.allocator();
        let bytes = Bytes::of(Vec::from_slice(alloc, of.bytes())?);
        let number = self.known.len();
        self.known.push(KnownShape { bytes, waiting: 1 })?;
        self.size = self.size.saturating_add(of.bytes().len());
        self.note(hash_of(of), number as u32)
    }

    /// Counts the documents that wait, under the names of the schema. From then on none waits. Errs only for want of memory.
    pub(crate) fn settle(&mut self, names: &Names, schema: &mut Schema) -> Result<(), Memory>
        requires known { AreKnown self.old.form names.now self.old.known.items }
        requires canonical { IsCanonical (length names.now) schema.old }
        requires room { (path : Path) → total_at names.now (with_waiting names.now self.old.known.items schema.old) path < 2 ^ 64 }
        ensures form { self.new.form ≡ self.old.form }
        ensures known { OnOk result (AreKnown self.old.form names.now self.new.known.items) }
        ensures none { OnOk result (NoneWaits self.new.known.items) }
        ensures canonical { OnOk result (IsCanonical (length names.now) schema.new) }
        ensures settled { OnOk result (schema.new ≡ with_waiting names.now self.old.known.items schema.old) }
    {
        for at in 0..self.known.len() {
            settle_shape(&mut self.known[at], names, schema)?;
        }
        Ok(())
    }

    /// Writes the number of a shape into the first place of its own that is free, if there is one.
    fn note(&mut self, first: u64, number: u32) -> Result<(), Memory>
        ensures form { self.new.form ≡ self.old.form }
        ensures same { self.new.known ≡ self.old.known }
    {
        if self.places.is_empty() {
            self.places.resize(PLACES, NONE)?;
        }
        for step in 0..TRIES {
            let place = place_of(first, step);
            if place < self.places.len() && self.places[place] == NONE {
                self.places[place] = number;
                return Ok(());
            }
        }
        Ok(())
    }
}

/// The place that is tried at a step.
fn place_of(first: u64, step: usize) -> usize {
    (first.wrapping_add(step as u64) % PLACES as u64) as usize
}

/// Counts the documents of a shape that wait.
fn settle_shape(shape: &mut KnownShape, names: &Names, schema: &mut Schema) -> Result<(), Memory>
    requires known { (form : ℕ) × IsKnown form names.now shape.old }
    requires canonical { IsCanonical (length names.now) schema.old }
    requires room { (path : Path) → total_at names.now (with_one names.now shape.old schema.old) path < 2 ^ 64 }
    ensures none { OnOk result (shape.new ≡ record shape.old { waiting = 0 }) }
    ensures canonical { OnOk result (IsCanonical (length names.now) schema.new) }
    ensures counted { OnOk result (schema.new ≡ with_one names.now shape.old schema.old) }
{
    let times = mem::replace(&mut shape.waiting, 0);
    if times == 0 {
        return Ok(());
    }
    let alloc = *schema.root().fields.allocator();
    let one = schema_of(alloc, shape.bytes.as_slice(), names)?;
    add_times(schema, names, &one, times)
}

/// The schema of the document of a stored record alone. Errs only for want of memory.
fn schema_of(alloc: Global, bytes: &[u8], names: &Names) -> Result<Schema, Memory>
    requires { (form : ℕ) × IsStoredIn form names.now bytes.now }
    ensures { IfOk result (λ one. one ≡ once_in names.now bytes.now) }
{
    names_agree();
    document_meant();
    // that the names are a dictionary
    let _known = names.len();
    let mut one = Schema::empty(alloc);
    add_known(&mut one, names, RecordRef::known(bytes))?;
    Ok(one)
}
