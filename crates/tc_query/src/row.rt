//! The row of one record.

ghost use Rattle.std.specs.Prelude.{◌≡◌, List, None, false, IfOk, IfSome, map, option_map, option_to_list};
ghost use Rattle.tc_model.specs.Document.{Document};
ghost use Rattle.tc_compact.specs.Meant.{IsRecordUnder};
ghost use Rattle.tc_request_model.specs.Paths.{reached};
ghost use Rattle.tc_request_model.specs.Request.{Hop};
ghost use Rattle.tc_request_model.specs.Rows.{is_among, meets as meets_value, row_of as row_reached};
ghost use Rattle.tc_request_model.specs.Rendered.{row_text};
ghost use Rattle.tc_command.specs.Commands.{ask_of};
ghost use Rattle.tc_command.specs.Rows.{row_of};
ghost use Rattle.tc_value.specs.Meaning.{tree_of};
ghost use Rattle.tc_query.specs.Readers.{IsLeadUnder};

use std::alloc::{AllocError, Global};
use tc_bytes::Bytes;
use tc_command::{Ask, PathExpr, Row};
use tc_names::Names;
use tc_path::{Lead, reaches, reaches_at};
use tc_record::RecordRef;
use tc_record_text::put_row;
use tc_value::Doc;

/// The row that an ask gets of a key's document, by a record of any form that is known to spell it where numbers mean names of
/// the dictionary; `None` where the document gives none. Errs only for want of memory.
pub fn row_of_known(
    alloc: Global,
    key: u64,
    of: RecordRef<'_>,
    names: &Names,
    ask: &Ask,
) -> Result<Option<Row>, AllocError>
    ensures { (d : Document) → IsRecordUnder names.now d of.entry.bytes → IfOk result (λ row. option_to_list (option_map row_of row) ≡ map row_text (row_reached (ask_of ask.now).equal_to key (reached (ask_of ask.now).path d))) }
{
    let met = meets(of.again(), names, ask);
    row_if_met(alloc, key, &of, names, ask, met)
}

/// The row that an ask gets of a key's document, by a record without names that is known to spell it, and by where the path leads
/// in it. Errs only for want of memory.
#[inline(always)]
pub(crate) fn row_led(
    alloc: Global,
    key: u64,
    of: &RecordRef<'_>,
    lead: Lead,
    names: &Names,
    ask: &Ask,
) -> Result<Option<Row>, AllocError>
    requires numbered { of.now.named ≡ false }
    requires leads { IsLeadUnder names.now (ask_of ask.now).path of.now.tokens lead }
    ensures { (d : Document) → IsRecordUnder names.now d of.now.bytes → IfOk result (λ row. option_to_list (option_map row_of row) ≡ map row_text (row_reached (ask_of ask.now).equal_to key (reached (ask_of ask.now).path d))) }
{
    let met = meets_led(of, lead, names, ask);
    row_if_met(alloc, key, of, names, ask, met)
}

/// The row that an ask gets where what it asks for was reached, as it is told here.
#[inline(always)]
fn row_if_met(
    alloc: Global,
    key: u64,
    of: &RecordRef<'_>,
    names: &Names,
    ask: &Ask,
    met: bool,
) -> Result<Option<Row>, AllocError>
    ensures { (d : Document) → IsRecordUnder names.now d of.now.bytes → met ≡ meets_value (ask_of ask.now).equal_to (reached (ask_of ask.now).path d) → IfOk result (λ row. option_to_list (option_map row_of row) ≡ map row_text (row_reached (ask_of ask.now).equal_to key (reached (ask_of ask.now).path d))) }
{
    if !met {
        return Ok(None);
    }
    row_of_path(alloc, key, of.again(), names, &ask.path)
}

/// The row of all that a path reaches.
fn row_of_path(
    alloc: Global,
    key: u64,
    of: RecordRef<'_>,
    names: &Names,
    path: &PathExpr,
) -> Result<Option<Row>, AllocError>
    ensures { (d : Document) → IsRecordUnder names.now d of.entry.bytes → IfOk result (λ row. option_to_list (option_map row_of row) ≡ map row_text (row_reached None key (reached path.now d))) }
{
    // A text has the names of members that a record has the numbers of.
    let room = of.bytes().len().saturating_mul(2);
    let mut text = Vec::with_capacity(alloc, room)?;
    put_row(of, names, path, key, &mut text)?;
    if text.as_slice().is_empty() {
        return Ok(None);
    }
    Ok(Some(Row {
        id: key,
        text: kept(alloc, text.as_slice())?,
    }))
}

/// A text in as much memory as it takes. Rows are kept until all are found, many of them: what is given back of the room of each
/// would be too small to be of use.
fn kept(alloc: Global, text: &[u8]) -> Result<Bytes, AllocError>
    ensures { IfOk result (λ same. same ≡ text.now) }
{
    let mut same = Vec::with_capacity(alloc, text.len())?;
    same.extend_from_slice(text)?;
    Ok(Bytes::of(same))
}

/// Whether what an ask asks for is among the values that its path reaches, if it asks for one. Takes no memory.
fn meets(of: RecordRef<'_>, names: &Names, ask: &Ask) -> bool
    ensures { (d : Document) → IsRecordUnder names.now d of.entry.bytes → result ≡ meets_value (ask_of ask.now).equal_to (reached (ask_of ask.now).path d) }
{
    match &ask.eq {
        None => true,
        Some(doc) => reaches(of, names, &ask.path, doc),
    }
}

/// The same, by where the path leads in a record without names.
#[inline(always)]
fn meets_led(of: &RecordRef<'_>, lead: Lead, names: &Names, ask: &Ask) -> bool
    requires numbered { of.now.named ≡ false }
    requires leads { IsLeadUnder names.now (ask_of ask.now).path of.now.tokens lead }
    ensures { (d : Document) → IsRecordUnder names.now d of.now.bytes → result ≡ meets_value (ask_of ask.now).equal_to (reached (ask_of ask.now).path d) }
{
    match &ask.eq {
        None => true,
        Some(doc) => reaches_led(of, lead, names, &ask.path, doc),
    }
}

/// Whether a path reaches a document, by where it leads in a record without names. The record is walked where that does not tell.
#[inline(always)]
fn reaches_led(of: &RecordRef<'_>, lead: Lead, names: &Names, path: &PathExpr, doc: &Doc) -> bool
    requires numbered { of.now.named ≡ false }
    requires leads { IsLeadUnder names.now path.now of.now.tokens lead }
    ensures { (d : Document) → IsRecordUnder names.now d of.now.bytes → result ≡ is_among (tree_of doc.now) (reached path.now d) }
{
    match told_by(of, lead, names, doc) {
        Some(met) => met,
        None => reaches(of.again(), names, path, doc),
    }
}

/// What a lead tells of that.
#[inline(always)]
fn told_by(of: &RecordRef<'_>, lead: Lead, names: &Names, doc: &Doc) -> Option<bool>
    requires { of.now.named ≡ false }
    ensures { (path : List Hop) → IsLeadUnder names.now path of.now.tokens lead → IfSome result (λ met. (d : Document) → IsRecordUnder names.now d of.now.bytes → met ≡ is_among (tree_of doc.now) (reached path d)) }
{
    // that the names are a dictionary
    let _count = names.len();
    match lead {
        Lead::Unknown => None,
        lead => reaches_at(of, lead, doc),
    }
}
