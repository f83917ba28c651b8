//! Text that is gathered in one place before it goes to where text is put, so that short pieces cost no call each.

ghost use Rattle.std.specs.Prelude.{◌≡◌, ◌+◌, ◌≤◌, ◌∷◌, ◌++◌, [], take, length, OnOk};
ghost use Rattle.json.specs.Print.{quoted};
ghost use Rattle.serde_json.specs.Data.{number, unsigned};
ghost use Rattle.serde_json.specs.Written.{compact_text, comma_if};
ghost use Rattle.tc_model.specs.Document.{Scalar};
ghost use Rattle.tc_model.specs.Json.{scalar_data};
ghost use Rattle.tc_record.specs.Preorder.{scalar};
ghost use Rattle.tc_record.specs.WalkView.{piece_of};

use crate::places::{place_byte, place_comma, place_front, place_text};
use itoa::Buffer;
use std::alloc::AllocError;
use std::marker::Model;
use tc_record::Piece;
use tc_text::{is_plain, put_name, put_quoted};

/// How many bytes are gathered at most.
const ROOM: usize = 1024;

/// A longer text is not gathered.
const MOST_WAITING: usize = 256;

/// How many bytes a short text has at most.
pub(crate) const MOST_LABEL: usize = 32;

/// A short text, which is moved as a whole.
#[derive(Clone, Copy)]
pub(crate) struct ShortText {
    pub(crate) bytes: [u8; MOST_LABEL],
    pub(crate) len: u8,
    ghost within: { len ≤ 32 },
}

/// Text that waits to be put. Contracts see its bytes.
#[derive(Drop)]
pub(crate) struct Staged {
    bytes: [u8; ROOM],
    len: usize,
}

impl Model for Staged {
    ghost use Rattle.std.specs.Prelude.{List, ℕ, take, ◌≤◌};

    ghost Value = { List ℕ };

    ghost view = { λ s. take s.len s.bytes };

    ghost invariant = { λ s. s.len ≤ 1024 };
}

impl Staged {
    /// Nothing waits. Takes no memory.
    #[inline(always)]
    pub(crate) fn new() -> Staged
        ensures { result ≡ [] }
    {
        Staged {
            bytes: [0; ROOM],
            len: 0,
        }
    }

    /// Puts what waits. Errs only for want of memory.
    pub(crate) fn put_out(&mut self, out: &mut Vec<u8>) -> Result<(), AllocError>
        ensures put { OnOk result (out.new.items ≡ out.old.items ++ self.old) }
        ensures none { OnOk result (self.new ≡ []) }
    {
        out.extend_from_slice(&self.bytes[..self.len])?;
        self.len = 0;
        Ok(())
    }

    /// Puts what waits where there is no room for so many bytes more.
    #[inline(always)]
    fn make_room(&mut self, count: usize, out: &mut Vec<u8>) -> Result<(), AllocError>
        requires { count ≤ 1024 }
        ensures same { OnOk result (out.new.items ++ self.new ≡ out.old.items ++ self.old) }
        ensures room { OnOk result (length self.new + count ≤ 1024) }
    {
        if count <= ROOM - self.len {
            Ok(())
        } else {
            self.put_out(out)
        }
    }

    /// Puts a short text.
    #[inline(always)]
    pub(crate) fn put_short(
        &mut self,
        text: &ShortText,
        out: &mut Vec<u8>,
    ) -> Result<(), AllocError>
        ensures { OnOk result (out.new.items ++ self.new ≡ out.old.items ++ (self.old ++ take text.now.len text.now.bytes)) }
    {
        self.make_room(MOST_LABEL, out)?;
        place_front::<MOST_LABEL>(&mut self.bytes, self.len, &text.bytes);
        self.len += text.len as usize;
        Ok(())
    }

    /// Puts a byte.
    #[inline(always)]
    pub(crate) fn put_byte(&mut self, byte: u8, out: &mut Vec<u8>) -> Result<(), AllocError>
        ensures { OnOk result (out.new.items ++ self.new ≡ out.old.items ++ (self.old ++ byte ∷ [])) }
    {
        self.make_room(1, out)?;
        self.bytes[self.len] = byte;
        self.len += 1;
        Ok(())
    }

    /// Puts bytes, of which there are not more than there is room for.
    #[inline(always)]
    fn put_bytes(&mut self, text: &[u8], out: &mut Vec<u8>) -> Result<(), AllocError>
        requires { length text.now ≤ 1024 }
        ensures { OnOk result (out.new.items ++ self.new ≡ out.old.items ++ (self.old ++ text.now)) }
    {
        self.make_room(text.len(), out)?;
        self.len = place_text(&mut self.bytes, self.len, text);
        Ok(())
    }

    /// Puts bytes as they are. Many of them go to their place at once.
    #[inline(always)]
    pub(crate) fn put_any(&mut self, text: &[u8], out: &mut Vec<u8>) -> Result<(), AllocError>
        ensures { OnOk result (out.new.items ++ self.new ≡ out.old.items ++ (self.old ++ text.now)) }
    {
        if text.len() > MOST_WAITING {
            self.put_out(out)?;
            return out.extend_from_slice(text);
        }
        self.put_bytes(text, out)
    }

    /// Puts a number that is not negative in decimal digits.
    pub(crate) fn put_unsigned(&mut self, value: u64, out: &mut Vec<u8>) -> Result<(), AllocError>
        ensures { OnOk result (out.new.items ++ self.new ≡ out.old.items ++ (self.old ++ compact_text (number (unsigned value)))) }
    {
        let mut digits = Buffer::new();
        self.put_bytes(digits.format(value).as_bytes(), out)
    }

    /// Puts the text of a scalar. A piece that is none puts nothing.
    #[inline(always)]
    pub(crate) fn put_scalar(
        &mut self,
        value: Piece<'_>,
        out: &mut Vec<u8>,
    ) -> Result<(), AllocError>
        ensures { OnOk result ((s : Scalar) → piece_of value.entry ≡ scalar s → out.new.items ++ self.new ≡ out.old.items ++ (self.old ++ compact_text (scalar_data s))) }
    {
        match value {
            Piece::Null => self.put_bytes(b"null", out),
            Piece::Bool(true) => self.put_bytes(b"true", out),
            Piece::Bool(false) => self.put_bytes(b"false", out),
            Piece::Int(value) => {
                let mut digits = Buffer::new();
                self.put_bytes(digits.format(value).as_bytes(), out)
            }
            Piece::Text(value) => self.put_text(value, out),
            Piece::Array => Ok(()),
            Piece::Object => Ok(()),
            Piece::Close => Ok(()),
        }
    }

    /// Puts a text between quotes, with its escapes. One that has some, or is long, goes to its place at once.
    #[inline(always)]
    fn put_text(&mut self, text: &str, out: &mut Vec<u8>) -> Result<(), AllocError>
        ensures { OnOk result (out.new.items ++ self.new ≡ out.old.items ++ (self.old ++ quoted text.now)) }
    {
        let bytes = text.as_bytes();
        if bytes.len() > MOST_WAITING || !is_plain(bytes) {
            self.put_out(out)?;
            return put_quoted(text, out);
        }
        self.make_room(bytes.len() + 2, out)?;
        let at = place_byte(&mut self.bytes, self.len, b'"');
        let end = place_text(&mut self.bytes, at, bytes);
        self.len = place_byte(&mut self.bytes, end, b'"');
        Ok(())
    }

    /// Puts the name of a member and a colon, after a comma if a member stands before. One that has escapes, or is long, goes to
    /// its place at once.
    #[inline(always)]
    pub(crate) fn put_name(
        &mut self,
        later: bool,
        name: &str,
        out: &mut Vec<u8>,
    ) -> Result<(), AllocError>
        ensures { OnOk result (out.new.items ++ self.new ≡ out.old.items ++ (self.old ++ (comma_if later ++ (quoted name.now ++ 58 ∷ [])))) }
    {
        let bytes = name.as_bytes();
        if bytes.len() > MOST_WAITING || !is_plain(bytes) {
            self.put_out(out)?;
            return put_name(later, name, out);
        }
        self.make_room(bytes.len() + 4, out)?;
        let start = place_comma(&mut self.bytes, self.len, later);
        let at = place_byte(&mut self.bytes, start, b'"');
        let end = place_text(&mut self.bytes, at, bytes);
        let behind = place_byte(&mut self.bytes, end, b'"');
        self.len = place_byte(&mut self.bytes, behind, b':');
        Ok(())
    }
}
