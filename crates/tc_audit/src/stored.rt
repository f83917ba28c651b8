//! Whether a record spells a document as it is stored.

ghost use Rattle.std.specs.Prelude.{◌≡◌, ◌↔◌, ◌<◌, ◌+◌, ◌^◌, IsTrue, Some, codes, length, false};
ghost use Rattle.std.specs.List.{AllByRecursion};
ghost use Rattle.tc_model.specs.Dictionary.{number_of};
ghost use Rattle.tc_record.specs.Borrowed.{IsBelow, numbered_tokens};
ghost use Rattle.tc_record.specs.Preorder.{tokens_of};
ghost use Rattle.tc_record.specs.Record.{labels, NumberedTree, record_of};
ghost use Rattle.tc_record.specs.StoredTest.{depth_behind};
ghost use Rattle.tc_record.specs.Walk.{is_above};
ghost use Rattle.tc_record.specs.WalkView.{key_of, piece_of};
ghost use Rattle.tc_compact.specs.Meant.{expanded, name_at};
ghost use Rattle.tc_audit.specs.Lacking.{begins_behind, is_numbered, lacks, lacks_id};
ghost use Rattle.tc_audit.specs.Stored.{IsStoredIn};

use tc_alike::is_surely_short;
use tc_compact::{expanded_size, spells_document};
use tc_names::Names;
use tc_record::{Label, Piece, RecordRef};

/// A record that can be compacted has fewer bytes with names.
const LONG: u32 = 0x4000_0000;

/// Whether a record spells a document under a dictionary as components of its form keep it: an object without a member `id`,
/// whose record of form 0 has fewer than 1,073,741,824 bytes. The number of the name `id` is handed in, if it has one: it is the
/// same for all records of a component. Takes no memory.
pub(crate) fn spells_stored(of: RecordRef<'_>, names: &Names, id: Option<u32>) -> bool
    requires numbered { of.named ≡ false }
    requires id { id ≡ number_of names.now (codes "id") }
    ensures { IsTrue result ↔ IsStoredIn of.entry.form names.now of.entry.bytes }
{
    // that the names are a dictionary, and that the bytes spell a numbered tree
    let _known = names.len();
    let _bytes = of.bytes();
    // that there are fewer than 2^32 tokens
    let _count = of.token_count();
    if !is_short(of.again(), names) {
        return false;
    }
    if !spells_document(of.again(), names) {
        return false;
    }
    if begins_behind_id(&of, names) {
        return true;
    }
    has_no_id(&of, names, id)
}

/// Whether each number has a name, and the record with names is short enough to be compacted. The members are walked only
/// where it could grow too long with the longest name in place of each number.
fn is_short(of: RecordRef<'_>, names: &Names) -> bool
    requires numbered { of.named ≡ false }
    ensures { (n : NumberedTree) → of.entry.tokens ≡ numbered_tokens n → IsTrue result ↔ AllByRecursion (IsBelow (length names.now)) (labels of.entry.tokens) × (length (record_of (expanded names.now n)) < 2 ^ 30) }
{
    if of.numbers_below(names.len()) && is_surely_short(&of, names) {
        return true;
    }
    match expanded_size(of, names) {
        Some(len) => len < LONG,
        None => false,
    }
}

/// Whether the first member of the outermost object is called by a name behind `id`. As names ascend all others are then too.
fn begins_behind_id(of: &RecordRef<'_>, names: &Names) -> bool
    ensures { (n : NumberedTree) → of.now.tokens ≡ numbered_tokens n → IsTrue result → IsTrue (begins_behind names.now (labels (tokens_of n))) }
{
    let mut slots = of.slots();
    match slots.next() {
        Some(number) => is_behind_id(number, names),
        None => false,
    }
}

/// Whether a number stands for a name behind `id`.
fn is_behind_id(number: u32, names: &Names) -> bool
    ensures { IsTrue result → IsTrue (is_above (Some (codes "id")) (name_at names.now number)) }
{
    match names.name_of(number) {
        Some(name) => "id" < name,
        None => false,
    }
}

/// Whether no member of the outermost object is called `id`, which has this number. Members are walked only where it has one.
fn has_no_id(of: &RecordRef<'_>, names: &Names, id: Option<u32>) -> bool
    requires few { length of.now.tokens < 2 ^ 32 }
    requires id { id ≡ number_of names.now (codes "id") }
    ensures { result ≡ lacks_id names.now of.now.tokens }
{
    match id {
        Some(id) => has_no_number(of, id),
        None => true,
    }
}

/// Whether no member of the outermost object carries a number.
fn has_no_number(of: &RecordRef<'_>, unwanted: u32) -> bool
    requires { length of.now.tokens < 2 ^ 32 }
    ensures { result ≡ lacks (is_numbered unwanted) 0 of.now.tokens }
{
    let mut cursor = of.cursor();
    let mut depth = 0;
    while let Some(token) = cursor.next() {
        if depth == 1 && carries(token.label, unwanted) {
            return false;
        }
        depth = depth_after(token.value, depth);
    }
    true
}

fn carries(label: Label<'_>, unwanted: u32) -> bool
    ensures { result ≡ is_numbered unwanted (key_of label.entry) }
{
    match label {
        Label::Number(number) => number == unwanted,
        _ => false,
    }
}

/// How many arrays and objects are open behind a piece.
fn depth_after(piece: Piece<'_>, depth: usize) -> usize
    requires { depth + 1 < 2 ^ 64 }
    ensures { result ≡ depth_behind (piece_of piece.entry) depth }
{
    match piece {
        Piece::Array | Piece::Object => depth + 1,
        Piece::Close => depth.saturating_sub(1),
        _ => depth,
    }
}
