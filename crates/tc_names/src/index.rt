//! The index that finds the number of a name.

ghost use Rattle.std.specs.Prelude.{◌≡◌, ◌≤◌, ◌<◌, ◌+◌, ◌%◌, ◌^◌, ◌++◌, ◌∷◌, [], suc, false, length, replicate, slice_get, slice_set, slice_index_or, vec_len, vec_capacity, IfOk, OnOk, OnErr};
ghost use Rattle.std.specs.Hash.FoldHasher.{initial, write, finish};
ghost use Rattle.tc_model.specs.Dictionary.{number_of, IsDictionary};
ghost use Rattle.tc_names.specs.Linking.{place_of, IsIndex};

use crate::texts::Texts;
use std::alloc::Global;
use std::hash::{FoldHasher, Hasher};
use tc_bytes::Memory;

/// Up to so many names have a place each.
const FEW: usize = 0x1_0000;

/// So many share a place where there are more, and twice as many before there are more places.
const SHARE: usize = 4;

/// Each name has a place, by its hash. A place has the last of its names, and each name has the one before it at its place.
/// Both are kept as the number of that name and one, or 0 where there is none.
#[derive(Drop)]
pub(crate) struct Index {
    heads: Vec<u32>,
    links: Vec<u32>,
}

impl Index {
    /// The index of no names.
    pub(crate) fn new(alloc: Global) -> Index
        ensures heads { result.heads.items ≡ [] }
        ensures links { result.links.items ≡ [] }
    {
        Index {
            heads: Vec::new(alloc),
            links: Vec::new(alloc),
        }
    }

    /// No names, with so many places, and room for so many names. Errs only for want of memory.
    pub(crate) fn with_places(alloc: Global, places: usize, count: usize) -> Result<Index, Memory>
        ensures heads { IfOk result (λ index. index.heads.items ≡ replicate places 0) }
        ensures links { IfOk result (λ index. index.links.items ≡ []) }
        ensures len { IfOk result (λ index. vec_len index.links ≡ 0) }
        ensures room { IfOk result (λ index. count ≤ vec_capacity index.links) }
    {
        Ok(Index {
            heads: vec![in alloc; 0; places]?,
            links: Vec::with_capacity(alloc, count)?,
        })
    }

    /// Adds a name, which has the next number.
    fn put(&mut self, name: &[u8])
        requires places { 0 < length self.old.heads.items }
        requires room { vec_len self.old.links < vec_capacity self.old.links }
        requires few { length self.old.links.items + 1 < 2 ^ 32 }
        ensures heads { self.new.heads.items ≡ slice_set self.old.heads.items (place_of (length self.old.heads.items) name.now) (suc (length self.old.links.items)) }
        ensures links { self.new.links.items ≡ self.old.links.items ++ slice_index_or self.old.heads.items (place_of (length self.old.heads.items) name.now) 0 ∷ [] }
        ensures len { vec_len self.new.links ≡ vec_len self.old.links + 1 }
        ensures capacity { vec_capacity self.new.links ≡ vec_capacity self.old.links }
    {
        let place = place_in(self.heads.as_slice().len(), name);
        let last = self.heads[place];
        self.heads[place] = self.links.as_slice().len() as u32 + 1;
        self.links.push_reserved(last);
    }

    /// The index of the texts, with room for so many and places enough for them. Errs only for want of memory.
    fn of(alloc: Global, texts: &Texts, count: usize) -> Result<Index, Memory>
        requires count { (0 < count) × (length texts.now ≤ count) }
        requires few { length texts.now < 2 ^ 32 }
        ensures index { IfOk result (λ index. IsIndex index.heads.items index.links.items texts.now) }
        ensures places { IfOk result (λ index. 0 < length index.heads.items) }
    {
        let mut index = Index::with_places(alloc, places_for(count), count)?;
        for id in 0..texts.len() {
            index.put(texts.at(id));
        }
        Ok(index)
    }

    /// Makes room for one name more. Errs only for want of memory.
    fn ready(&mut self, alloc: Global, texts: &Texts) -> Result<(), Memory>
        requires index { IsIndex self.old.heads.items self.old.links.items texts.now }
        requires few { length texts.now < 2 ^ 32 }
        ensures index { IsIndex self.new.heads.items self.new.links.items texts.now }
        ensures places { OnOk result (0 < length self.new.heads.items) }
        ensures room { OnOk result (vec_len self.new.links < vec_capacity self.new.links) }
    {
        let count = self.links.as_slice().len();
        if are_full(self.heads.as_slice().len(), count) {
            let wider = Index::of(alloc, texts, 2 * count + 8)?;
            *self = wider;
        }
        self.links.reserve(1)?;
        Ok(())
    }

    /// Keeps fewer places where many names have more than enough. Errs only for want of memory.
    pub(crate) fn settle(&mut self, alloc: Global, texts: &Texts) -> Result<(), Memory>
        requires index { IsIndex self.old.heads.items self.old.links.items texts.now }
        requires few { length texts.now < 2 ^ 32 }
        ensures index { IsIndex self.new.heads.items self.new.links.items texts.now }
    {
        let count = texts.len();
        if count > FEW && places_for(count) < self.heads.as_slice().len() {
            let settled = Index::of(alloc, texts, count)?;
            *self = settled;
        }
        Ok(())
    }

    /// Adds a name behind the others, and to the index. Errs only for want of memory, and then there are the same texts.
    pub(crate) fn add(
        &mut self,
        alloc: Global,
        texts: &mut Texts,
        name: &[u8],
    ) -> Result<(), Memory>
        requires index { IsIndex self.old.heads.items self.old.links.items texts.old }
        requires few { length texts.old + 1 < 2 ^ 32 }
        ensures index { IsIndex self.new.heads.items self.new.links.items texts.new }
        ensures ok { OnOk result (texts.new ≡ texts.old ++ name.now ∷ []) }
        ensures err { OnErr result (texts.new ≡ texts.old) }
    {
        self.ready(alloc, texts)?;
        texts.push(name)?;
        self.put(name);
        Ok(())
    }

    /// The same index in memory of its own. Errs only for want of memory.
    pub(crate) fn copy(&self, alloc: Global) -> Result<Index, Memory>
        ensures heads { IfOk result (λ copied. copied.heads.items ≡ self.now.heads.items) }
        ensures links { IfOk result (λ copied. copied.links.items ≡ self.now.links.items) }
    {
        Ok(Index {
            heads: Vec::from_slice(alloc, &self.heads)?,
            links: Vec::from_slice(alloc, &self.links)?,
        })
    }

    /// The number of a name.
    pub(crate) fn find(&self, texts: &Texts, name: &[u8]) -> Option<u32>
        requires dictionary { IsDictionary texts.now }
        requires index { IsIndex self.now.heads.items self.now.links.items texts.now }
        ensures number { result ≡ number_of texts.now name.now }
    {
        let heads = self.heads.as_slice();
        let links = self.links.as_slice();
        if heads.len() == 0 {
            return None;
        }
        let mut last = heads[place_in(heads.len(), name)];
        while last != 0 {
            let number = last - 1;
            if texts.at(number as usize) == name {
                return Some(number);
            }
            last = links[number as usize];
        }
        None
    }
}

/// How many places are enough for so many names.
fn places_for(count: usize) -> usize
    ensures { 0 < count → 0 < result }
{
    if count <= FEW {
        return count;
    }
    FEW.max(count / SHARE)
}

/// Whether so many places are too few for one name more than there are.
fn are_full(places: usize, count: usize) -> bool
    ensures { result ≡ false → 0 < places }
{
    count >= places && (places < FEW || count / (2 * SHARE) >= places)
}

/// The place of a name among so many. Half of the hash is enough for the most that there are, and is divided in half the time.
fn place_in(count: usize, name: &[u8]) -> usize
    requires { 0 < count }
    ensures place { result ≡ place_of count name.now }
    ensures within { result < count }
{
    let mut hasher = FoldHasher::default();
    hasher.write(name);
    ((hasher.finish() >> 32) % count as u64) as usize
}
