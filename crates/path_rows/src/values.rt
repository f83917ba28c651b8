//! The values that a path reaches in the records of a document.

ghost use Rattle.std.specs.List.{AllByRecursion};
ghost use Rattle.tc_compact.specs.Meant.{IsRecordUnder};
ghost use Rattle.tc_path.specs.Reached.{IsLawful};
ghost use Rattle.tc_value.specs.Meaning.{tree_of};

use crate::records::{named, numbered};
use std::alloc::Global;
use tc_command::{Ask, Command, PathExpr, parse};
use tc_compact::document_of;
use tc_json::text_of;
use tc_names::Names;
use tc_path::{ValueRef, first, hops_of, lead_of, reaches, reaches_at, select};
use tc_record::RecordRef;
use tc_value::Doc;

/// What the calls answer for a document and a query, over the record with names and over the one with numbers, and over
/// another record of the document, if there is one.
pub(crate) fn answer_of(
    alloc: Global,
    document: &str,
    query: &str,
    spelled: Option<Vec<u8>>,
) -> Option<String> {
    let ask = ask_in(alloc, query)?;
    let equal_to = ask.eq?;
    let mut names = Names::new(alloc);
    let whole = named(alloc, document)?;
    let by_names = reached(alloc, whole.as_slice(), &names, &ask.path, &equal_to)?;
    let compacted = numbered(alloc, whole.as_slice(), &mut names)?;
    let by_numbers = reached(alloc, compacted.as_slice(), &names, &ask.path, &equal_to)?;
    let by_lead = reached_by_lead(alloc, compacted.as_slice(), &names, &ask.path, &equal_to)?;
    let as_spelled = match spelled {
        Some(record) => reached(alloc, record.as_slice(), &names, &ask.path, &equal_to)?,
        None => String::from_str(alloc, by_names.as_str()).ok()?,
    };
    if by_names != by_numbers || by_names != as_spelled {
        return String::from_str(alloc, "the forms differ").ok();
    }
    format!(in alloc; "{}{by_lead}", by_names.as_str()).ok()
}

// What the place to which a path leads in a record with numbers tells, if it tells whether the path reaches a document.
fn reached_by_lead(
    alloc: Global,
    bytes: &[u8],
    names: &Names,
    path: &PathExpr,
    equal_to: &Doc,
) -> Option<&'static str> {
    let record = RecordRef::of(bytes)?;
    if record.named() {
        return None;
    }
    let Some(hops) = hops_of(alloc, path, names).ok()? else {
        return Some("");
    };
    let lead = lead_of(&record, hops.as_slice());
    Some(match reaches_at(&record, lead, equal_to) {
        Some(true) => ", led there",
        Some(false) => ", led elsewhere",
        None => "",
    })
}

fn ask_in(alloc: Global, query: &str) -> Option<Ask> {
    match parse(alloc, query.as_bytes()).ok()? {
        Command::Query(ask) => Some(ask),
        _other => None,
    }
}

// What a path reaches in a record, if that spells a document.
fn reached(
    alloc: Global,
    bytes: &[u8],
    names: &Names,
    path: &PathExpr,
    equal_to: &Doc,
) -> Option<String> {
    let record = RecordRef::of(bytes)?;
    match document_of(alloc, record.again(), names) {
        Ok(doc) => reached_in(alloc, record, names, path, equal_to, &doc),
        Err(_) => None,
    }
}

// How many values a path reaches, the first one and all of them, with their texts and whether they equal a document, and
// whether the path reaches that document.
fn reached_in(
    alloc: Global,
    of: RecordRef<'_>,
    names: &Names,
    path: &PathExpr,
    equal_to: &Doc,
    doc: &Doc,
) -> Option<String>
    requires { IsRecordUnder names.now (tree_of doc.now) of.bytes }
{
    match select(alloc, of.again(), names, path) {
        Ok(values) => {
            let each = texts(alloc, values.as_slice(), names, equal_to)?;
            let found = if reaches(of.again(), names, path, equal_to) {
                "reached"
            } else {
                "not reached"
            };
            let first = first_text(alloc, of, names, path, equal_to, doc)?;
            format!(in alloc;
                "{} first{} all{}, {found}",
                values.len(),
                first.as_str(),
                each.as_str()
            )
            .ok()
        }
        Err(_) => None,
    }
}

// The text of the first one. The document is what the record spells, and is not looked at.
fn first_text(
    alloc: Global,
    of: RecordRef<'_>,
    names: &Names,
    path: &PathExpr,
    equal_to: &Doc,
    _doc: &Doc,
) -> Option<String>
    requires { IsRecordUnder names.now (tree_of _doc.now) of.bytes }
{
    match first(of, names, path) {
        Some(value) => told(alloc, &value, names, equal_to),
        None => String::from_str(alloc, " none").ok(),
    }
}

fn texts(alloc: Global, values: &[ValueRef<'_>], names: &Names, equal_to: &Doc) -> Option<String>
    requires { AllByRecursion (IsLawful names.now) values.now }
{
    let mut out = String::new(alloc);
    for value in values {
        out.push_str(told(alloc, value, names, equal_to)?.as_str())
            .ok()?;
    }
    Some(out)
}

// The text of a value, and whether it equals a document.
fn told(alloc: Global, value: &ValueRef<'_>, names: &Names, equal_to: &Doc) -> Option<String>
    requires { IsLawful names.now value.now }
{
    let doc = value.to_doc(alloc, names).ok()?;
    let text = text_of(alloc, &doc).ok()?;
    let mark = if value.equals(names, equal_to) {
        "="
    } else {
        ""
    };
    format!(in alloc; " {mark}{}", text.as_str()).ok()
}
