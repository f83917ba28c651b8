//! A value in a record, borrowed.

ghost use Rattle.std.specs.Prelude.{◌≡◌, ◌∷◌, Some, false, IfOk};
ghost use Rattle.tc_model.specs.Document.{Document};
ghost use Rattle.tc_value.specs.Meaning.{tree_of};
ghost use Rattle.tc_record.specs.WalkView.{token_of, piece_of};
ghost use Rattle.tc_request_model.specs.Equal.{same_document};
ghost use Rattle.tc_path.specs.Reached.{value_at, IsLawful};
ghost use Rattle.tc_record_text.specs.Skipped.{is_close};

use crate::comparing::equals_value;
use std::alloc::{AllocError, Global};
use std::marker::Model;
use tc_compact::value_behind;
use tc_names::Names;
use tc_record::{Cursor, RecordFault, Token};
use tc_value::Doc;

/// A value in a record that is borrowed. Contracts see the record's tokens from the value's first one on.
#[derive(Drop)]
pub struct ValueRef<'a> {
    first: Token<'a>,
    behind: Cursor<'a>,
}

impl<'a> Model for ValueRef<'a> {
    ghost use Rattle.std.specs.Prelude.{List, ◌∷◌};
    ghost use Rattle.tc_model.specs.Document.{Scalar};
    ghost use Rattle.tc_record.specs.Preorder.{Token};
    ghost use Rattle.tc_record.specs.Walk.{Key};

    ghost Value = { List (Token Key Scalar) };

    ghost use Rattle.tc_record.specs.WalkView.{token_of};

    ghost view = { λ v. token_of v.first ∷ v.behind };

    ghost use Rattle.std.specs.Prelude.{◌≡◌, false};
    ghost use Rattle.tc_record.specs.WalkView.{piece_of};
    ghost use Rattle.tc_record_text.specs.Skipped.{is_close};

    ghost invariant = { λ v. is_close (piece_of v.first.value) ≡ false };
}

impl<'a> ValueRef<'a> {
    /// The value that a token is or opens, where a cursor stands behind that token.
    pub(crate) fn of(first: Token<'a>, behind: &Cursor<'a>) -> ValueRef<'a>
        requires { is_close (piece_of first.value) ≡ false }
        ensures { result ≡ token_of first.entry ∷ behind.now }
    {
        ValueRef {
            first,
            behind: behind.again(),
        }
    }

    /// Whether the value is this document, where numbers mean names of the dictionary. A boolean is no number. Takes no
    /// memory.
    pub fn equals(&self, names: &Names, doc: &Doc) -> bool
        ensures { (d : Document) → value_at names.now self.now ≡ Some d → result ≡ same_document d (tree_of doc.now) }
    {
        let mut cursor = self.behind.again();
        equals_value(&mut cursor, self.first, names, doc)
    }

    /// The value as a document, where numbers mean names of the dictionary. Errs only for want of memory.
    pub fn to_doc(&self, alloc: Global, names: &Names) -> Result<Doc, AllocError>
        requires { IsLawful names.now self.now }
        ensures { IfOk result (λ doc. value_at names.now self.now ≡ Some (tree_of doc)) }
    {
        let mut cursor = self.behind.again();
        match value_behind(&mut cursor, self.first, names, alloc) {
            Ok(Some(doc)) => Ok(doc),
            Ok(None) => unreachable!(),
            Err(RecordFault::Memory) => Err(AllocError),
            Err(RecordFault::NotARecord) => unreachable!(),
        }
    }
}
