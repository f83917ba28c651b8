//! Fields appended to a vector of bytes. Each call errs only for want of memory.

ghost use Rattle.std.specs.Prelude.{◌≡◌, ◌<◌, ◌^◌, ◌++◌, length, is_ok, if◌then◌else◌};
ghost use Rattle.std.specs.Int.{w32, w64, to_be_bytes};
ghost use Rattle.tc_bytes.specs.Codec.{counted_bytes};

use crate::Memory;
use byteorder::{BigEndian, ByteOrder};

/// Appends a big-endian number of four bytes.
pub fn put_u32(out: &mut Vec<u8>, number: u32) -> Result<(), Memory>
    ensures { out.new.items ≡ (if is_ok result then out.old.items ++ to_be_bytes w32 number else out.old.items) }
{
    let mut field = [0u8; 4];
    BigEndian::write_u32(&mut field, number);
    out.extend_from_slice(&field)
}

/// Appends a big-endian number of eight bytes.
pub fn put_u64(out: &mut Vec<u8>, number: u64) -> Result<(), Memory>
    ensures { out.new.items ≡ (if is_ok result then out.old.items ++ to_be_bytes w64 number else out.old.items) }
{
    let mut field = [0u8; 8];
    BigEndian::write_u64(&mut field, number);
    out.extend_from_slice(&field)
}

/// Appends bytes behind their number. After an `Err` nothing was appended.
pub fn put_counted(out: &mut Vec<u8>, bytes: &[u8]) -> Result<(), Memory>
    requires { length bytes.now < 2 ^ 32 }
    ensures { out.new.items ≡ (if is_ok result then out.old.items ++ counted_bytes bytes.now else out.old.items) }
{
    let start = out.len();
    put_u32(out, bytes.len() as u32)?;
    if let Err(e) = out.extend_from_slice(bytes) {
        out.truncate(start);
        return Err(e);
    }
    Ok(())
}
