//! What a walk that learns the names of a record met.

ghost use Rattle.std.specs.Prelude.{◌≡◌, ◌<◌, ◌+◌, ◌^◌, ◌++◌, ◌∷◌, [], OnOk, length};

use std::alloc::{AllocError, Global};

/// The number of each name, from the front, and how many bytes the names have together.
#[derive(Drop)]
pub struct Met {
    pub numbers: Vec<u32>,
    pub name_bytes: usize,
}

impl Met {
    /// Nothing yet. Takes no memory.
    pub fn new(alloc: Global) -> Met
        ensures numbers { result.numbers.items ≡ [] }
        ensures bytes { result.name_bytes ≡ 0 }
    {
        Met {
            numbers: Vec::new(alloc),
            name_bytes: 0,
        }
    }

    /// Nothing any more. The room for the numbers stays.
    pub fn clear(&mut self)
        ensures numbers { self.new.numbers.items ≡ [] }
        ensures bytes { self.new.name_bytes ≡ 0 }
    {
        self.numbers.clear();
        self.name_bytes = 0;
    }

    /// One name more, with its number.
    pub fn take(&mut self, number: u32, name: &str) -> Result<(), AllocError>
        requires { self.old.name_bytes + length name.now < 2 ^ 32 }
        ensures numbers { OnOk result (self.new.numbers.items ≡ self.old.numbers.items ++ number ∷ []) }
        ensures bytes { OnOk result (self.new.name_bytes ≡ self.old.name_bytes + length name.now) }
    {
        self.numbers.push(number)?;
        self.name_bytes += name.len();
        Ok(())
    }
}
