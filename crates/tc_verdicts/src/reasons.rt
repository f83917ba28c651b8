//! The text of what is wrong with the files of a partition.

ghost use Rattle.std.specs.Prelude.{◌≡◌, ◌++◌, ◌∷◌, codes, false, true, OnOk};
ghost use Rattle.json.specs.Print.{quoted};
ghost use Rattle.serde_json.specs.Data.{array, string};
ghost use Rattle.serde_json.specs.Written.{comma_if, compact_text, items_text};
ghost use Rattle.tc_request_model.specs.Reply.{one_member, two_members};
ghost use Rattle.tc_request_model.specs.Reply as reply;
ghost use Rattle.tc_files.specs.Names.{name_text};
ghost use Rattle.tc_difference.specs.Found.{found_meant};
ghost use Rattle.tc_schema.specs.Paths.{path_meant, step_meant};
ghost use Rattle.tc_value.specs.Kinds.{kind_meant};
ghost use Rattle.tc_verdicts.specs.Lines.{difference_data, files_data, kind_name, over_name, path_data, reason_data, step_data};

use std::alloc::{AllocError, Global};
use tc_check::{Over, Reason};
use tc_difference::Found;
use tc_files::file_text;
use tc_store::{Damage, FileName};
use tc_text::{put_comma, put_mark, put_name, put_quoted, put_unsigned};
use tc_value::{Kind, Step};

/// Puts the text of a reason behind other text. Errs only for want of memory, as all that puts text does.
pub(crate) fn put_reason(
    alloc: Global,
    reason: &Reason,
    out: &mut Vec<u8>,
) -> Result<(), AllocError>
    ensures { OnOk result (out.new.items ≡ out.old.items ++ compact_text (reason_data reason.now)) }
{
    match reason {
        Reason::Damaged(Damage::Bytes { file, place, .. }) => {
            put_place(alloc, *file, *place, out)
        }
        Reason::Damaged(Damage::Files { names }) => put_files(alloc, names.as_slice(), out),
        Reason::Layout { found, found_of } => put_layout(*found, *found_of, out),
        Reason::Count { file, first } => put_difference(alloc, *file, first, out),
        Reason::TooMuch { what, number } => put_over(*what, *number, out),
    }
}

fn put_place(alloc: Global, file: FileName, place: u64, out: &mut Vec<u8>) -> Result<(), AllocError>
    ensures { OnOk result (out.new.items ≡ out.old.items ++ compact_text (two_members (codes "file") (string (name_text file)) (codes "place") (reply.count place))) }
{
    put_mark(b'{', out)?;
    put_file_member(alloc, false, file, out)?;
    put_number(true, "place", place, out)?;
    put_mark(b'}', out)
}

fn put_files(alloc: Global, files: &[FileName], out: &mut Vec<u8>) -> Result<(), AllocError>
    ensures { OnOk result (out.new.items ≡ out.old.items ++ compact_text (one_member (codes "files") (array (files_data files.now)))) }
{
    put_mark(b'{', out)?;
    put_files_member(alloc, files, out)?;
    put_mark(b'}', out)
}

fn put_layout(found: u32, found_of: u32, out: &mut Vec<u8>) -> Result<(), AllocError>
    ensures { OnOk result (out.new.items ≡ out.old.items ++ compact_text (two_members (codes "found") (reply.count found) (codes "found_of") (reply.count found_of))) }
{
    put_mark(b'{', out)?;
    put_number(false, "found", u64::from(found), out)?;
    put_number(true, "found_of", u64::from(found_of), out)?;
    put_mark(b'}', out)
}

fn put_difference(
    alloc: Global,
    file: FileName,
    first: &Found,
    out: &mut Vec<u8>,
) -> Result<(), AllocError>
    ensures { OnOk result (out.new.items ≡ out.old.items ++ compact_text (difference_data file (found_meant first.now))) }
{
    put_mark(b'{', out)?;
    put_number(false, "counted", first.counted, out)?;
    put_file_member(alloc, true, file, out)?;
    put_number(true, "kept", first.kept, out)?;
    put_kind_member(first.kind, out)?;
    put_path_member(first, out)?;
    put_mark(b'}', out)
}

fn put_over(what: Over, number: u64, out: &mut Vec<u8>) -> Result<(), AllocError>
    ensures { OnOk result (out.new.items ≡ out.old.items ++ compact_text (two_members (codes "number") (reply.count number) (codes "over") (string (over_name what)))) }
{
    put_mark(b'{', out)?;
    put_number(false, "number", number, out)?;
    put_text(true, "over", name_of_over(what), out)?;
    put_mark(b'}', out)
}

// ---- members

/// Puts a member that is a number, after a comma if a member stands before.
pub(crate) fn put_number(
    later: bool,
    name: &str,
    value: u64,
    out: &mut Vec<u8>,
) -> Result<(), AllocError>
    ensures { OnOk result (out.new.items ≡ out.old.items ++ (comma_if later ++ (quoted name.now ++ 58 ∷ compact_text (reply.count value)))) }
{
    put_name(later, name, out)?;
    put_unsigned(value, out)
}

/// Puts a member that is a text, after a comma if a member stands before.
pub(crate) fn put_text(
    later: bool,
    name: &str,
    text: &str,
    out: &mut Vec<u8>,
) -> Result<(), AllocError>
    ensures { OnOk result (out.new.items ≡ out.old.items ++ (comma_if later ++ (quoted name.now ++ 58 ∷ compact_text (string text.now)))) }
{
    put_name(later, name, out)?;
    put_quoted(text, out)
}

fn put_file_member(
    alloc: Global,
    later: bool,
    file: FileName,
    out: &mut Vec<u8>,
) -> Result<(), AllocError>
    ensures { OnOk result (out.new.items ≡ out.old.items ++ (comma_if later ++ (quoted (codes "file") ++ 58 ∷ compact_text (string (name_text file))))) }
{
    put_name(later, "file", out)?;
    put_file(alloc, file, out)
}

fn put_files_member(alloc: Global, files: &[FileName], out: &mut Vec<u8>) -> Result<(), AllocError>
    ensures { OnOk result (out.new.items ≡ out.old.items ++ (comma_if false ++ (quoted (codes "files") ++ 58 ∷ compact_text (array (files_data files.now))))) }
{
    put_name(false, "files", out)?;
    put_mark(b'[', out)?;
    put_file_items(alloc, files, out)
}

fn put_kind_member(kind: Kind, out: &mut Vec<u8>) -> Result<(), AllocError>
    ensures { OnOk result (out.new.items ≡ out.old.items ++ (comma_if true ++ (quoted (codes "kind") ++ 58 ∷ compact_text (string (kind_name (kind_meant kind)))))) }
{
    put_text(true, "kind", name_of_kind(kind), out)
}

fn put_path_member(first: &Found, out: &mut Vec<u8>) -> Result<(), AllocError>
    ensures { OnOk result (out.new.items ≡ out.old.items ++ (comma_if true ++ (quoted (codes "path") ++ 58 ∷ compact_text (array (path_data (path_meant first.now.path.items)))))) }
{
    put_name(true, "path", out)?;
    put_mark(b'[', out)?;
    put_steps(first.path.as_slice(), out)
}

// ---- names of files, and steps

fn put_file(alloc: Global, file: FileName, out: &mut Vec<u8>) -> Result<(), AllocError>
    ensures { OnOk result (out.new.items ≡ out.old.items ++ compact_text (string (name_text file))) }
{
    let text = file_text(alloc, file)?;
    put_quoted(text.as_str(), out)
}

// The names of files in an array, and its closing bracket.
fn put_file_items(alloc: Global, files: &[FileName], out: &mut Vec<u8>) -> Result<(), AllocError>
    ensures { OnOk result (out.new.items ≡ out.old.items ++ items_text false (files_data files.now)) }
{
    let mut later = false;
    for file in files {
        put_comma(later, out)?;
        put_file(alloc, *file, out)?;
        later = true;
    }
    put_mark(b']', out)
}

// The steps of a path in an array, and its closing bracket.
fn put_steps(path: &[Step], out: &mut Vec<u8>) -> Result<(), AllocError>
    ensures { OnOk result (out.new.items ≡ out.old.items ++ items_text false (path_data (path_meant path.now))) }
{
    let mut later = false;
    for step in path {
        put_comma(later, out)?;
        put_step(step, out)?;
        later = true;
    }
    put_mark(b']', out)
}

fn put_step(step: &Step, out: &mut Vec<u8>) -> Result<(), AllocError>
    ensures { OnOk result (out.new.items ≡ out.old.items ++ compact_text (step_data (step_meant step.now))) }
{
    match step {
        Step::Field(name) => put_quoted(name.as_str(), out),
        Step::Item => out.extend_from_slice(b"null"),
    }
}

// ---- words

fn name_of_kind(kind: Kind) -> &'static str
    ensures { result.now ≡ kind_name (kind_meant kind) }
{
    match kind {
        Kind::Null => "null",
        Kind::Bool => "boolean",
        Kind::Int => "integer",
        Kind::Text => "text",
        Kind::Array => "array",
        Kind::Object => "object",
    }
}

fn name_of_over(what: Over) -> &'static str
    ensures { result.now ≡ over_name what }
{
    match what {
        Over::Documents => "documents",
        Over::Names => "names",
        Over::RecordBytes => "record_bytes",
    }
}
