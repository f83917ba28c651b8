//! A vector that text is put behind, with the last of the text gathered, so that short pieces cost no call each.

ghost use Rattle.std.specs.Prelude.{◌≡◌, ◌∷◌, ◌++◌, [], codes, OnOk};
ghost use Rattle.json.specs.Print.{quoted};
ghost use Rattle.serde_json.specs.Data.{number, unsigned};
ghost use Rattle.serde_json.specs.Written.{compact_text, comma_if};
ghost use Rattle.tc_model.specs.Document.{Scalar};
ghost use Rattle.tc_model.specs.Json.{scalar_data};
ghost use Rattle.tc_record.specs.Preorder.{scalar};
ghost use Rattle.tc_record.specs.WalkView.{piece_of};

use crate::staged::Staged;
use std::alloc::{AllocError, Global};
use std::marker::Model;
use std::mem;
use tc_record::Piece;

/// Text: what stands in the vector, and what waits behind it. Contracts see its bytes.
#[derive(Drop)]
pub(crate) struct Sheet {
    pub(crate) text: Vec<u8>,
    pub(crate) waiting: Staged,
}

impl Model for Sheet {
    ghost use Rattle.std.specs.Prelude.{List, ℕ, ◌++◌};

    ghost Value = { List ℕ };

    ghost view = { λ s. s.text.items ++ s.waiting };
}

impl Sheet {
    /// The text of a vector, which stays empty until it is given back. Takes no memory.
    #[inline(always)]
    pub(crate) fn of(out: &mut Vec<u8>) -> Sheet
        ensures { result ≡ out.old.items }
    {
        let empty = Vec::new(*out.allocator());
        Sheet {
            text: mem::replace(out, empty),
            waiting: Staged::new(),
        }
    }

    /// Gives the text back. Errs only for want of memory, and then gives back some first part of it.
    #[inline(always)]
    pub(crate) fn give_back(self, out: &mut Vec<u8>) -> Result<(), AllocError>
        ensures { OnOk result (out.new.items ≡ self) }
    {
        let Sheet {
            mut text,
            mut waiting,
        } = self;
        let put = waiting.put_out(&mut text);
        *out = text;
        put
    }

    /// Where the vector takes its memory.
    #[inline(always)]
    pub(crate) fn allocator(&self) -> Global {
        *self.text.allocator()
    }

    /// Puts one byte. Errs only for want of memory, as all that puts text does.
    #[inline(always)]
    pub(crate) fn put_byte(&mut self, byte: u8) -> Result<(), AllocError>
        ensures { OnOk result (self.new ≡ self.old ++ byte ∷ []) }
    {
        self.waiting.put_byte(byte, &mut self.text)
    }

    /// Puts a comma, if something stands before.
    #[inline(always)]
    pub(crate) fn put_comma(&mut self, later: bool) -> Result<(), AllocError>
        ensures { OnOk result (self.new ≡ self.old ++ comma_if later) }
    {
        if later { self.put_byte(b',') } else { Ok(()) }
    }

    /// Puts bytes as they are.
    #[inline(always)]
    pub(crate) fn put_bytes(&mut self, text: &[u8]) -> Result<(), AllocError>
        ensures { OnOk result (self.new ≡ self.old ++ text.now) }
    {
        self.waiting.put_any(text, &mut self.text)
    }

    /// Puts the text of a scalar. A piece that is none puts nothing.
    #[inline(always)]
    pub(crate) fn put_scalar(&mut self, value: Piece<'_>) -> Result<(), AllocError>
        ensures { OnOk result ((s : Scalar) → piece_of value.entry ≡ scalar s → self.new ≡ self.old ++ compact_text (scalar_data s)) }
    {
        self.waiting.put_scalar(value, &mut self.text)
    }

    /// Puts the name of a member and a colon, after a comma if a member stands before.
    #[inline(always)]
    pub(crate) fn put_name(&mut self, later: bool, name: &str) -> Result<(), AllocError>
        ensures { OnOk result (self.new ≡ self.old ++ (comma_if later ++ (quoted name.now ++ 58 ∷ []))) }
    {
        self.waiting.put_name(later, name, &mut self.text)
    }

    /// Puts the member `id`, after a comma if a member stands before.
    pub(crate) fn put_key(&mut self, later: bool, key: u64) -> Result<(), AllocError>
        ensures { OnOk result (self.new ≡ self.old ++ (comma_if later ++ (quoted (codes "id") ++ 58 ∷ compact_text (number (unsigned key))))) }
    {
        self.put_name(later, "id")?;
        self.waiting.put_unsigned(key, &mut self.text)
    }
}
