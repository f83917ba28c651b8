//! Marks, names of members, and scalars.

ghost use Rattle.std.specs.Prelude.{◌≡◌, ◌∷◌, [], ◌++◌, OnOk};
ghost use Rattle.json.specs.Print.{quoted};
ghost use Rattle.serde_json.specs.Data.{number, unsigned};
ghost use Rattle.serde_json.specs.Written.{compact_text, comma_if};
ghost use Rattle.tc_model.specs.Document.{boolean, integer};
ghost use Rattle.tc_model.specs.Json.{scalar_data};

use crate::quoting::put_quoted;
use itoa::Buffer;
use std::alloc::AllocError;

/// Puts one byte. Errs only for want of memory, as all that puts text does.
#[inline(always)]
pub fn put_mark(mark: u8, out: &mut Vec<u8>) -> Result<(), AllocError>
    ensures { OnOk result (out.new.items ≡ out.old.items ++ mark ∷ []) }
{
    out.push(mark)?;
    Ok(())
}

/// Puts a comma, if something stands before.
#[inline(always)]
pub fn put_comma(later: bool, out: &mut Vec<u8>) -> Result<(), AllocError>
    ensures { OnOk result (out.new.items ≡ out.old.items ++ comma_if later) }
{
    if later { put_mark(b',', out) } else { Ok(()) }
}

/// Puts the name of a member and a colon, after a comma if a member stands before.
pub fn put_name(later: bool, name: &str, out: &mut Vec<u8>) -> Result<(), AllocError>
    ensures { OnOk result (out.new.items ≡ out.old.items ++ (comma_if later ++ (quoted name.now ++ 58 ∷ []))) }
{
    put_comma(later, out)?;
    put_quoted(name, out)?;
    put_mark(b':', out)
}

/// Puts `true` or `false`.
pub fn put_bool(value: bool, out: &mut Vec<u8>) -> Result<(), AllocError>
    ensures { OnOk result (out.new.items ≡ out.old.items ++ compact_text (scalar_data (boolean value))) }
{
    if value {
        out.extend_from_slice(b"true")
    } else {
        out.extend_from_slice(b"false")
    }
}

/// Puts an integer in decimal digits.
pub fn put_int(value: i64, out: &mut Vec<u8>) -> Result<(), AllocError>
    ensures { OnOk result (out.new.items ≡ out.old.items ++ compact_text (scalar_data (integer value))) }
{
    let mut digits = Buffer::new();
    out.extend_from_slice(digits.format(value).as_bytes())
}

/// Puts a number that is not negative in decimal digits.
pub fn put_unsigned(value: u64, out: &mut Vec<u8>) -> Result<(), AllocError>
    ensures { OnOk result (out.new.items ≡ out.old.items ++ compact_text (number (unsigned value))) }
{
    let mut digits = Buffer::new();
    out.extend_from_slice(digits.format(value).as_bytes())
}
