//! What the readers of closed files share: the bytes of a file, and the fault of those that break the rules.

ghost use Rattle.std.specs.Prelude.{◌≡◌, ◌≤◌, ◌+◌, length, take, drop, IfOk, IfSome, IsErrOf};
ghost use Rattle.std.specs.Result.{IsOk};
ghost use Rattle.tc_store.specs.Counted.{IsCountedOnce, IsCountedRead};
ghost use Rattle.tc_store.specs.Judging.{IsNoDamage, IsDamageOr};

use crate::damage::ReadFault;
use crate::frozen::Frozen;
use crate::watch::Watch;
use std::alloc::Global;
use tc_bytes::Bytes;

/// So many bytes of a file, from a place on, by one read, and by none where memory was wanting.
pub fn bytes_of<F: Frozen>(
    alloc: Global,
    file: &F,
    at: u64,
    count: usize,
    watch: &mut F::Watch,
) -> Result<Vec<u8>, ReadFault>
    requires { at + count ≤ F.size file.now }
    ensures read { IfOk result (λ read. IfSome (F.content file.now) (λ bytes. read.items ≡ take count (drop at bytes))) }
    ensures length { IfOk result (λ read. length read.items ≡ count) }
    ensures no_damage { IsNoDamage result }
    ensures counted { IsCountedOnce (IsErrOf result ReadFault.Disk) (IsOk result) (F.Watch.counts watch.old) (F.Watch.counts watch.new) }
    ensures tried { IsErrOf result ReadFault.Disk → IsCountedRead (IsErrOf result ReadFault.Disk) (F.Watch.counts watch.old) (F.Watch.counts watch.new) }
{
    let mut bytes = vec![in alloc; 0u8; count]?;
    match file.read(at, &mut bytes, watch) {
        Ok(()) => Ok(bytes),
        Err(_) => Err(ReadFault::Disk),
    }
}

/// All bytes of a file, by at most one read.
pub fn whole_of<F: Frozen>(
    alloc: Global,
    file: &F,
    watch: &mut F::Watch,
) -> Result<Vec<u8>, ReadFault>
    ensures read { IfOk result (λ read. IfSome (F.content file.now) (λ bytes. read.items ≡ bytes)) }
    ensures length { IfOk result (λ read. length read.items ≡ F.size file.now) }
    ensures no_damage { IsNoDamage result }
    ensures counted { IsCountedOnce (IsErrOf result ReadFault.Disk) (IsOk result) (F.Watch.counts watch.old) (F.Watch.counts watch.new) }
{
    bytes_of(alloc, file, 0, file.len() as usize, watch)
}

/// The fault of bytes that break the rules, or want of memory for them.
pub fn damaged(alloc: Global, place: usize, bytes: &[u8]) -> ReadFault
    ensures damage { IsDamageOr place bytes.now result }
{
    match Vec::from_slice(alloc, bytes) {
        Ok(bytes) => ReadFault::Damaged {
            place: place as u64,
            bytes: Bytes::of(bytes),
        },
        Err(_) => ReadFault::Memory,
    }
}
