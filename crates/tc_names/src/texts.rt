//! Texts one behind the other, and where each ends.

ghost use Rattle.std.specs.Prelude.{◌≡◌, ◌↔◌, ◌<◌, ◌≤◌, ◌-◌, ◌^◌, ◌++◌, ◌∷◌, Some, [], length, take, drop, flat_map, slice_get, IfOk, OnOk, OnErr, IsTrue};
ghost use Rattle.tc_model.specs.Dictionary.{Extends};
ghost use Rattle.tc_names.specs.Cutting.{cut, AreEnds};

use std::alloc::{AllocError, Global};
use std::marker::Model;
use tc_bytes::Memory;

/// Texts that take no memory of their own each. Contracts see the list of them, each as its bytes. Together they have
/// fewer than 2^32 bytes, so where each ends takes four.
pub(crate) struct Texts {
    bytes: Vec<u8>,
    ends: Vec<u32>,
}

impl Model for Texts {
    ghost use Rattle.std.specs.Prelude.{ℕ, List};
    ghost use Rattle.tc_names.specs.Cutting.{cut, AreEnds};

    ghost Value = { List (List ℕ) };

    ghost view = { λ t. cut 0 t.ends.items t.bytes.items };

    ghost invariant = { λ t. AreEnds 0 t.ends.items t.bytes.items };
}

impl Drop for Texts {
    fn drop(self) {
        let Texts { bytes, ends } = self;
        drop(bytes);
        drop(ends);
    }
}

impl Texts {
    /// No texts.
    pub(crate) fn new(alloc: Global) -> Texts
        ensures empty { result ≡ [] }
    {
        Texts {
            bytes: Vec::new(alloc),
            ends: Vec::new(alloc),
        }
    }

    /// No texts, with room for so many of so many bytes together. Errs only for want of memory.
    pub(crate) fn with_room(alloc: Global, count: usize, bytes: usize) -> Result<Texts, Memory>
        ensures empty { IfOk result (λ texts. texts ≡ []) }
    {
        Ok(Texts {
            bytes: Vec::with_capacity(alloc, bytes)?,
            ends: Vec::with_capacity(alloc, count)?,
        })
    }

    /// How many texts there are.
    pub(crate) fn len(&self) -> usize
        ensures count { result ≡ length self.now }
    {
        self.ends.as_slice().len()
    }

    /// How many bytes the texts have together.
    pub(crate) fn size(&self) -> u32
        ensures size { result ≡ length (flat_map (λ text. text) self.now) }
    {
        match self.ends.as_slice() {
            [] => 0,
            [.., last] => *last,
        }
    }

    /// The text at a place.
    pub(crate) fn at(&self, place: usize) -> &[u8]
        requires { place < length self.now }
        ensures text { slice_get self.now place ≡ Some result.now }
    {
        between(&self.bytes, &self.ends, place)
    }

    /// Adds a text behind the others. Errs only for want of memory, which stands also for texts that would have 2^32 bytes
    /// or more together. Then nothing has changed.
    pub(crate) fn push(&mut self, text: &[u8]) -> Result<(), Memory>
        ensures ok { OnOk result (self.new ≡ self.old ++ text.now ∷ []) }
        ensures err { OnErr result (self.new ≡ self.old) }
    {
        append(&mut self.bytes, &mut self.ends, text)?;
        Ok(())
    }

    /// The same texts in memory of their own, and no more of it than they take. Errs only for want of memory.
    pub(crate) fn copy(&self, alloc: Global) -> Result<Texts, Memory>
        ensures same { IfOk result (λ copied. copied ≡ self.now) }
    {
        Ok(Texts {
            bytes: Vec::from_slice(alloc, &self.bytes)?,
            ends: Vec::from_slice(alloc, &self.ends)?,
        })
    }

    /// Whether these texts begin with the older ones.
    pub(crate) fn starts_with(&self, older: &Texts) -> bool
        ensures prefix { IsTrue result ↔ Extends self.now older.now }
    {
        if self.len() < older.len() {
            return false;
        }
        for place in 0..older.len() {
            if self.at(place) != older.at(place) {
                return false;
            }
        }
        true
    }
}

/// The text at a place, by where each text ends.
fn between<'a>(bytes: &'a [u8], ends: &[u32], place: usize) -> &'a [u8]
    requires { AreEnds 0 ends.now bytes.now × (place < length ends.now) }
    ensures text { slice_get (cut 0 ends.now bytes.now) place ≡ Some result.now }
{
    let start = start_of(ends, place);
    let stop = ends[place] as usize;
    part(bytes, start, stop)
}

/// Where the text at a place starts, which is where the one before it ends.
fn start_of(ends: &[u32], place: usize) -> usize
    requires { place < length ends.now }
    ensures start { slice_get (0 ∷ ends.now) place ≡ Some result }
{
    match place {
        0 => 0,
        _ => ends[place - 1] as usize,
    }
}

/// The bytes from one place to another.
fn part(bytes: &[u8], start: usize, stop: usize) -> &[u8]
    requires { (start ≤ stop) × (stop ≤ length bytes.now) }
    ensures part { result.now ≡ take (stop - start) (drop start bytes.now) }
{
    &bytes[start..stop]
}

/// Where a text ends that comes behind the bytes. Errs exactly where that is no number of 32 bits.
fn end_behind(bytes: &[u8], text: &[u8]) -> Result<u32, Memory>
    ensures end { IfOk result (λ end. end ≡ length (bytes.now ++ text.now)) }
    ensures refused { OnErr result (2 ^ 32 ≤ length (bytes.now ++ text.now)) }
{
    match u32::try_from(bytes.len() + text.len()) {
        Ok(end) => Ok(end),
        Err(_) => Err(AllocError),
    }
}

/// Adds a text and where it ends. After an `Err` both are as they were.
fn append(bytes: &mut Vec<u8>, ends: &mut Vec<u32>, text: &[u8]) -> Result<(), Memory>
    ensures bytes { OnOk result (bytes.new.items ≡ bytes.old.items ++ text.now) }
    ensures ends { OnOk result (ends.new.items ≡ ends.old.items ++ length (bytes.old.items ++ text.now) ∷ []) }
    ensures same { OnErr result ((bytes.new.items ≡ bytes.old.items) × (ends.new.items ≡ ends.old.items)) }
{
    let end = end_behind(bytes, text)?;
    ends.reserve(1)?;
    bytes.extend_from_slice(text)?;
    ends.push_reserved(end);
    Ok(())
}
