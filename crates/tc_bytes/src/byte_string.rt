//! A byte string.

ghost use Rattle.std.specs.Prelude.{◌≡◌, IfOk};

use crate::Memory;
use std::alloc::Global;
use std::marker::Model;

/// A byte string of any length. Contracts see it as the list of its bytes.
#[derive(Drop, Debug)]
pub struct Bytes {
    bytes: Vec<u8>,
}

impl Model for Bytes {
    ghost use Rattle.std.specs.Prelude.{List, ℕ};

    ghost Value = { List ℕ };

    ghost view = { λ b. b.bytes.items };
}

impl Bytes {
    /// The byte string of these bytes. Takes no memory.
    pub fn of(bytes: Vec<u8>) -> Bytes
        ensures same { result ≡ bytes.items }
    {
        Bytes { bytes }
    }

    /// The bytes, borrowed.
    pub fn as_slice(&self) -> &[u8]
        ensures same { result.now ≡ self.now }
    {
        self.bytes.as_slice()
    }

    /// The bytes as a vector. Takes no memory.
    pub fn into_inner(self) -> Vec<u8>
        ensures same { result.items ≡ self }
    {
        self.bytes
    }

    /// The same bytes in memory of their own. Errs only for want of memory.
    pub fn copy(&self, alloc: Global) -> Result<Bytes, Memory>
        ensures same { IfOk result (λ copied. copied ≡ self.now) }
    {
        Ok(Bytes {
            bytes: Vec::from_slice(alloc, self.as_slice())?,
        })
    }
}
