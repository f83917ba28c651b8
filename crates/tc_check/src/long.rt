//! Records of logs that are too long to be compacted.

ghost use Rattle.std.specs.Prelude.{◌≡◌, ◌<◌, ◌≤◌, ◌^◌, IfNone, IfSome};
ghost use Rattle.std.specs.List.{AllByRecursion};
ghost use Rattle.tc_lawful.specs.Logs.{IsShort};
ghost use Rattle.tc_check.specs.Counting.{writes_in};
ghost use Rattle.tc_check.specs.Long.{IsFirstLong, IsLong};

use tc_log::{Write, Writes};

/// A record that can be compacted has fewer bytes.
const LONG: usize = 0x4000_0000;

/// How many bytes the first record of these logs has that is too long to be compacted. `None` comes exactly where none is.
pub fn first_long(logs: &[Writes]) -> Option<u64>
    ensures none { IfNone result (AllByRecursion IsShort (writes_in logs.now)) }
    ensures first { IfSome result (IsFirstLong (writes_in logs.now)) }
{
    let mut rest = logs;
    while let Some((log, behind)) = rest.split_first() {
        if let Some(size) = first_long_of(log.as_slice()) {
            return Some(size);
        }
        rest = behind;
    }
    None
}

/// The same of one log.
fn first_long_of(writes: &[Write]) -> Option<u64>
    ensures none { IfNone result (AllByRecursion IsShort writes.now) }
    ensures first { IfSome result (IsFirstLong writes.now) }
{
    let mut rest = writes;
    while let Some((write, behind)) = rest.split_first() {
        if let Some(size) = long_of(write) {
            return Some(size);
        }
        rest = behind;
    }
    None
}

/// How many bytes the record of a write has, where it is too long.
fn long_of(write: &Write) -> Option<u64>
    ensures none { IfNone result (IsShort write.now) }
    ensures long { IfSome result (IsLong write.now) }
{
    match write {
        Write::Upsert { key: _, bytes } => long_size(bytes.as_slice().len()),
        Write::Delete { key: _ } => None,
    }
}

fn long_size(size: usize) -> Option<u64>
    ensures none { IfNone result (size < 2 ^ 30) }
    ensures long { IfSome result (λ long. (long ≡ size) × (2 ^ 30 ≤ size)) }
{
    if size < LONG { None } else { Some(size as u64) }
}
