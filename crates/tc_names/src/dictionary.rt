//! The dictionary: the number of a name, and the name of a number.

use crate::index::Index;
use crate::texts::Texts;
use std::alloc::Global;
use std::marker::Model;
use tc_bytes::Memory;

/// Names with their numbers, which run from 0 on without gaps. Names are only ever added. Contracts see the list of
/// the names, each as its bytes; a name is any text of fewer than 2^32 bytes, and there are fewer than 2^32. All together
/// have fewer than 2^32 bytes too: names that would have more are answered as want of memory.
pub struct Names {
    texts: Texts,
    index: Index,
    longest: u32,
    alloc: Global,
}

impl Model for Names {
    ghost use Rattle.std.specs.Prelude.{List, ℕ};

    ghost Value = { List (List ℕ) };

    ghost view = { λ n. n.texts };

    ghost use Rattle.std.specs.Prelude.{◌≡◌};
    ghost use Rattle.tc_model.specs.Dictionary.{IsDictionary};
    ghost use Rattle.tc_names.specs.Linking.{IsIndex};
    ghost use Rattle.tc_names.specs.Longest.{longest_of};

    ghost invariant = { λ n. IsDictionary n.texts × (IsIndex n.index.heads.items n.index.links.items n.texts × (n.longest ≡ longest_of n.texts)) };
}

impl Drop for Names {
    /// One call, so that whoever drops a dictionary sees none of its fields.
    fn drop(self) {
        let Names {
            texts,
            index,
            longest: _,
            alloc: _,
        } = self;
        drop(texts);
        drop(index);
    }
}

impl Names {
    ghost use Rattle.std.specs.Prelude.{◌≡◌, ◌<◌, ◌^◌, ◌↔◌, ℕ, List, [], length, option_map, flat_map, slice_get, IfOk, OnOk, OnErr, IsTrue, Some};
    ghost use Rattle.tc_model.specs.Dictionary.{number_of, learned, Extends, IsDictionary};
    ghost use Rattle.tc_names.specs.Longest.{longest_of};

    /// No names.
    pub fn new(alloc: Global) -> Names
        ensures empty { result ≡ [] }
    {
        Names {
            texts: Texts::new(alloc),
            index: Index::new(alloc),
            longest: 0,
            alloc,
        }
    }

    /// No names, with a place for each of so many and room for so many bytes together. Errs only for want of memory.
    pub(crate) fn with_room(alloc: Global, count: usize, bytes: usize) -> Result<Names, Memory>
        ensures empty { IfOk result (λ names. names ≡ []) }
    {
        Ok(Names {
            texts: Texts::with_room(alloc, count, bytes)?,
            index: Index::with_places(alloc, count, count)?,
            longest: 0,
            alloc,
        })
    }

    /// Keeps fewer places for many names, once all that were to come are there. Errs only for want of memory.
    pub(crate) fn settle(&mut self) -> Result<(), Memory>
        ensures same { self.new ≡ self.old }
    {
        self.index.settle(self.alloc, &self.texts)
    }

    /// How many names there are.
    pub fn len(&self) -> u32
        ensures count { result ≡ length self.now }
        ensures dictionary { IsDictionary self.now }
    {
        self.texts.len() as u32
    }

    /// How many bytes all names have together.
    pub(crate) fn size(&self) -> u32
        ensures { result ≡ length (flat_map (λ name. name) self.now) }
    {
        self.texts.size()
    }

    /// How many bytes the longest name has, and 0 where there is none. It is kept, so that no name is looked at.
    pub fn longest_name(&self) -> u32
        ensures { result ≡ longest_of self.now }
    {
        self.longest
    }

    /// The number of a name. `None` comes exactly where the name is not there.
    pub fn id_of(&self, name: &str) -> Option<u32>
        ensures number { result ≡ number_of self.now name.now }
    {
        self.index.find(&self.texts, name.as_bytes())
    }

    /// The name of a number. `None` comes exactly where no name has the number.
    pub fn name_of(&self, id: u32) -> Option<&str>
        ensures name { option_map (λ name. name.now) result ≡ slice_get self.now id }
    {
        if id as usize >= self.texts.len() {
            return None;
        }
        Some(unsafe { str::from_utf8_unchecked(self.texts.at(id as usize)) })
    }

    /// Whether these names begin with the older ones, so that each of those has the same number here.
    pub fn extends(&self, older: &Names) -> bool
        ensures prefix { IsTrue result ↔ Extends self.now older.now }
    {
        self.texts.starts_with(&older.texts)
    }

    /// The number of a name, which is added at the end if it is new. Errs only for want of memory.
    pub fn learn(&mut self, name: &str) -> Result<u32, Memory>
        requires room { length (learned self.old name.now) < 2 ^ 32 }
        requires short { length name.now < 2 ^ 32 }
        ensures number { IfOk result (λ id. number_of self.new name.now ≡ Some id) }
        ensures ok { OnOk result (self.new ≡ learned self.old name.now) }
        ensures err { OnErr result (self.new ≡ self.old) }
        ensures stays { (known : List ℕ) (id : ℕ) → number_of self.old known ≡ Some id → number_of self.new known ≡ Some id }
        ensures dictionary { IsDictionary self.new }
    {
        match self.id_of(name) {
            Some(id) => Ok(id),
            None => {
                let id = self.len();
                self.index
                    .add(self.alloc, &mut self.texts, name.as_bytes())?;
                self.longest = self.longest.max(name.len() as u32);
                Ok(id)
            }
        }
    }

    /// The same names in memory of their own. Errs only for want of memory.
    pub fn copy(&self) -> Result<Names, Memory>
        ensures same { IfOk result (λ copied. copied ≡ self.now) }
    {
        Ok(Names {
            texts: self.texts.copy(self.alloc)?,
            index: self.index.copy(self.alloc)?,
            longest: self.longest,
            alloc: self.alloc,
        })
    }
}
