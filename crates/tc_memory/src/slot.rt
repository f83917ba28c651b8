//! What a table keeps of a key.

ghost use Rattle.std.specs.Prelude.{◌≡◌, option_map, IfOk};
ghost use Rattle.tc_value.specs.ShapeMeaning.{shape_tree};
ghost use Rattle.tc_memory.specs.Table as table;
ghost use Rattle.tc_memory.specs.Meaning.{version_of, kept_of, held_of, entry_of, shape_apart};

use crate::held::{Entry, Held};
use std::alloc::Global;
use tc_bytes::{Bytes, Memory};
use tc_value::Shape;

/// The newest version of a key's document.
#[derive(Drop)]
pub(crate) enum Version {
    Gone,
    Live(Bytes),
}

/// The newest version, and the shape of the document below the table. The shape stands apart: most slots of a load have none,
/// and a map takes room for up to twice its slots.
pub(crate) struct Slot {
    pub(crate) version: Version,
    pub(crate) below: Option<Box<Shape>>,
}

impl Drop for Slot {
    /// One call, so that whoever drops a slot sees nothing of what is in it.
    fn drop(self) {
        let Slot { version, below } = self;
        drop(version);
        drop(below);
    }
}

impl Version {
    /// The version, lent.
    pub(crate) fn lend(&self) -> Held<'_>
        ensures { held_of result ≡ version_of self.now }
    {
        match self {
            Version::Gone => Held::Gone,
            Version::Live(bytes) => Held::Live(bytes),
        }
    }
}

impl Slot {
    /// The slot of a key, lent.
    pub(crate) fn lend(&self, key: u64) -> Entry<'_>
        ensures { entry_of result ≡ (key, kept_of self.now) }
    {
        Entry {
            key,
            held: self.version.lend(),
            below: lent(&self.below),
        }
    }
}

/// A shape that stands apart, lent.
fn lent(below: &Option<Box<Shape>>) -> Option<&Shape>
    ensures { option_map (λ s. shape_tree s.now) result ≡ shape_apart below.now }
{
    match below {
        None => None,
        Some(shape) => Some(&**shape),
    }
}

/// A shape, put apart. Errs only for want of memory.
pub(crate) fn apart(alloc: Global, below: Option<Shape>) -> Result<Option<Box<Shape>>, Memory>
    ensures { IfOk result (λ kept. shape_apart kept ≡ option_map shape_tree below) }
{
    match below {
        None => Ok(None),
        Some(shape) => Ok(Some(Box::new(alloc, shape)?)),
    }
}
