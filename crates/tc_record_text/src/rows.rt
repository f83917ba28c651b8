//! The row of a record, as text.

ghost use Rattle.std.specs.Prelude.{◌≡◌, ◌∷◌, [], ◌++◌, ℕ, List, None, OnOk, map, flat_map, option_to_list};
ghost use Rattle.tc_model.specs.Document.{Document};
ghost use Rattle.tc_request_model.specs.Paths.{reached};
ghost use Rattle.tc_request_model.specs.Rows.{row_of};
ghost use Rattle.tc_record.specs.Building.{document_read};
ghost use Rattle.tc_compact.specs.Meant.{tokens_meant, IsRecordUnder};
ghost use Rattle.tc_command.specs.Asks.{hop_of};
ghost use Rattle.tc_record_text.specs.KeptLabels.{AreLabels};
ghost use Rattle.tc_record_text.specs.Listed.{comma, row_front, row_end, row_texts};

use crate::memo::LabelMemo;
use crate::reaching::put_reached;
use std::alloc::AllocError;
use tc_command::{Hop, PathExpr};
use tc_compact::document_meant;
use tc_names::Names;
use tc_record::{Cursor, RecordRef};
use tc_text::{put_mark, put_unsigned};

/// Puts the text of the row of a key, with all values that a path reaches in the document that a record of any form spells
/// under a dictionary; nothing where it reaches none. Errs only for want of memory, and then leaves some first part of the text.
pub fn put_row(
    of: RecordRef<'_>,
    names: &Names,
    path: &PathExpr,
    key: u64,
    out: &mut Vec<u8>,
) -> Result<(), AllocError>
    ensures { (d : Document) → IsRecordUnder names.now d of.entry.bytes → OnOk result (out.new.items ≡ out.old.items ++ row_texts (row_of None key (reached path.now d))) }
{
    document_meant();
    let _bytes = of.bytes();
    let mut memo = LabelMemo::new(*out.allocator(), of.token_count());
    put_row_of_tokens(of.cursor(), names, &mut memo, path.as_slice(), key, out)
}

// The row of the value whose tokens these are.
fn put_row_of_tokens(
    tokens: Cursor<'_>,
    names: &Names,
    memo: &mut LabelMemo,
    hops: &[Hop],
    key: u64,
    out: &mut Vec<u8>,
) -> Result<(), AllocError>
    requires { AreLabels names.now memo.old.kept.items }
    ensures { OnOk result (out.new.items ≡ out.old.items ++ row_texts (row_of None key (flat_map (reached (map hop_of hops.now)) (option_to_list (document_read (tokens_meant names.now tokens.entry)))))) }
{
    let start = out.len();
    put_front(key, out)?;
    let begun = out.as_slice().len();
    put_reached(tokens, names, memo, hops, out)?;
    if out.as_slice().len() == begun {
        out.truncate(start);
        return Ok(());
    }
    put_end(out)
}

// What stands before the values.
fn put_front(key: u64, out: &mut Vec<u8>) -> Result<(), AllocError>
    ensures { OnOk result (out.new.items ≡ out.old.items ++ row_front key) }
{
    out.extend_from_slice(b"{\"id\":")?;
    put_unsigned(key, out)?;
    out.extend_from_slice(b",\"values\":")?;
    put_mark(b'[', out)
}

// The end of the row, in place of the comma after its last value.
fn put_end(out: &mut Vec<u8>) -> Result<(), AllocError>
    ensures { (before : List ℕ) → out.old.items ≡ before ++ comma ∷ [] → OnOk result (out.new.items ≡ before ++ row_end) }
{
    let _comma = out.pop();
    out.extend_from_slice(b"]}")
}
