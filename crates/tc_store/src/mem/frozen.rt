//! A still file in memory.

ghost use Rattle.std.specs.Prelude.{◌≡◌, ◌≤◌, ◌↔◌, ◌+◌, true, refl, length, take, drop, OnOk, IfSome, IsErr};
ghost use Rattle.tc_store.specs.Counted.{IsCountedRead};
ghost use Rattle.tc_store.specs.Memory.Watch.{counts_of, is_failing, after_read};

use crate::fault::FrozenFault;
use crate::file_name::FileName;
use crate::frozen::Frozen;
use crate::mem::watch::MemWatch;
use std::sync::Arc;

/// A still file in memory, whose bytes its store shares.
#[derive(Drop)]
pub struct MemFrozen {
    pub(crate) name: FileName,
    pub(crate) bytes: Arc<Vec<u8>>,
}

impl Frozen for MemFrozen {
    type Watch = MemWatch;

    ghost use Rattle.tc_store.specs.Memory.Frozen.{frozen_name, frozen_size, frozen_content};

    ghost name = { frozen_name };

    ghost size = { frozen_size };

    ghost content = { frozen_content };

    ghost told_size = { λ f. refl };

    fn len(&self) -> u64 {
        let bytes: &Vec<u8> = &self.bytes;
        bytes.len() as u64
    }

    fn read(&self, at: u64, into: &mut [u8], watch: &mut MemWatch) -> Result<(), FrozenFault>
        requires { at + length into.old ≤ frozen_size self.now }

        ensures read { OnOk result (IfSome (frozen_content self.now) (λ bytes. into.new ≡ take (length into.old) (drop at bytes))) }
        ensures counted { IsCountedRead (IsErr result) (counts_of watch.old) (counts_of watch.new) }
        ensures numbered { watch.new ≡ after_read watch.old }
        ensures fails { IsErr result ↔ (is_failing watch.old ≡ true) }
    {
        if watch.read_fails() {
            return Err(FrozenFault);
        }
        let start = at as usize;
        let end = start + into.len();
        let bytes: &Vec<u8> = &self.bytes;
        into.copy_from_slice(&bytes[start..end]);
        Ok(())
    }
}
