//! The document that a JSON text means, read token by token without a JSON value in between.

ghost use Rattle.std.specs.Prelude.{◌≡◌, ◌+◌, ◌<◌, ◌≤◌, length, Some, IfOk, IfSome, IsSome, option_map, option_and_then};
ghost use Rattle.json.specs.Json.{items, members, value};
ghost use Rattle.serde_json.specs.Read.{read, converted};
ghost use Rattle.tc_model.specs.Limits.{max_depth};
ghost use Rattle.tc_model.specs.Tree.{leaf, no_members, items_of, members_of, depth, items_depth, members_depth};
ghost use Rattle.tc_model.specs.Document.{integer};
ghost use Rattle.tc_model.specs.Json.{document_of};
ghost use Rattle.tc_value.specs.Meaning.{tree_of};
ghost use Rattle.tc_doc_reader.specs.Tokens.{items_in, members_in, spare_levels, document_next};

use crate::guesses::Guesses;
use crate::integers::integer_of;
use crate::members::in_order;
use json::{Reader, Scratch, Token};
use std::alloc::{AllocError, Global};
use tc_value::{Doc, Items, MAX_DEPTH, Member, Members, Text};

// How deep a line may nest: its own object, and the document in it.
const LINE_DEPTH: u32 = MAX_DEPTH + 1;

/// Reads the documents of texts, and keeps the memory that this needs from text to text.
#[derive(Drop)]
pub struct DocReader {
    scratch: Scratch,
    guesses: Guesses,
}

impl DocReader {
    /// A reader. Takes no memory before the first text.
    pub fn new(alloc: Global) -> DocReader {
        DocReader {
            scratch: Scratch::new(alloc),
            guesses: Guesses::new(),
        }
    }

    /// The document that a text means, in memory of its own, where it nests no deeper than one more than a document may.
    /// `None` says nothing of the text. Errs only for want of memory.
    pub fn read(&mut self, alloc: Global, text: &str) -> Result<Option<Doc>, AllocError>
        ensures meant { IfOk result (λ found. IfSome found
            (λ doc. option_and_then document_of (read text.now) ≡ Some (tree_of doc))) }
        ensures shallow { IfOk result (λ found. IfSome found (λ doc. depth (tree_of doc) ≤ max_depth + 1)) }
    {
        let Ok(mut reader) = Reader::new(text, &mut self.scratch) else {
            return Err(AllocError);
        };
        let found = read_next(alloc, &mut reader, &mut self.guesses, LINE_DEPTH)?;
        match reader.next() {
            Some(_) => Ok(None),
            None => Ok(found),
        }
    }
}

// The document at the front of what is left, where it nests no deeper than `room`.
// Built into the two loops below, which take a call for each array and each object: most values are scalars, and a call for
// each of those would move its value through memory once more.
#[inline(always)]
#[cycle(reading)]
fn read_next(
    alloc: Global,
    reader: &mut Reader<'_>,
    guesses: &mut Guesses,
    room: u32,
) -> Result<Option<Doc>, AllocError>
    ensures meant { IfOk result (λ found. IfSome found
        (λ doc. document_next room reader.old ≡ Some (tree_of doc, reader.new))) }
    ensures shallow { IfOk result (λ found. IfSome found (λ doc. depth (tree_of doc) ≤ room)) }
    ensures shorter { IfOk result (λ found. IsSome found → length reader.new < length reader.old) }
{
    let Some(token) = reader.next() else {
        return Ok(None);
    };
    match token {
        Token::String(text) => Ok(Some(Doc::Text(Text::copy_of(alloc, text)?))),
        Token::Number(text) => match int_of(integer_of(text)) {
            Some(doc) => Ok(Some(doc)),
            None => Ok(None),
        },
        Token::Bool(b) => Ok(Some(Doc::Bool(b))),
        Token::Null => Ok(Some(Doc::Null)),
        Token::EndObject | Token::EndArray | Token::Key(_) | Token::Bad => Ok(None),
        Token::BeginArray => {
            if room == 0 {
                return Ok(None);
            }
            match read_items(alloc, reader, guesses, room - 1)? {
                Some(items) => Ok(Some(Doc::Array(items))),
                None => Ok(None),
            }
        }
        Token::BeginObject => {
            if room == 0 {
                return Ok(None);
            }
            match read_members(alloc, reader, guesses, room - 1)? {
                Some(members) => Ok(Some(Doc::Object(members))),
                None => Ok(None),
            }
        }
    }
}

// An integer as a document.
fn int_of(number: Option<i64>) -> Option<Doc>
    ensures told { IfSome result (λ doc. option_map (λ z. leaf (integer z)) number ≡ Some (tree_of doc)) }
    ensures flat { IfSome result (λ doc. depth (tree_of doc) ≡ 0) }
{
    let number = number?;
    Some(Doc::Int(number))
}

// The items up to the bracket that closes their array, each of which nests no deeper than `room`.
#[inline(never)]
#[cycle(reading)]
fn read_items(
    alloc: Global,
    reader: &mut Reader<'_>,
    guesses: &mut Guesses,
    room: u32,
) -> Result<Option<Items>, AllocError>
    ensures meant { IfOk result (λ found. IfSome found (λ xs.
        converted items_in (items (value (room + spare_levels)) (length reader.old) reader.old)
        ≡ Some (items_of xs, reader.new))) }
    ensures shallow { IfOk result (λ found. IfSome found (λ xs. items_depth (items_of xs) ≤ room)) }
    ensures shorter { IfOk result (λ found. IsSome found → length reader.new < length reader.old) }
{
    let mut found = Vec::with_capacity(alloc, guesses.items.room(room))?;
    'items: while !reader.take_end_array() {
        match read_next(alloc, reader, guesses, room)? {
            Some(item) => found.push(item)?,
            None => return Ok(None),
        }
    }
    guesses.items.keep(room, found.len());
    Ok(Some(Items::of(found)))
}

// The members up to the brace that closes their object, in the byte order of their names. The same holds of their
// values.
#[inline(never)]
#[cycle(reading)]
fn read_members(
    alloc: Global,
    reader: &mut Reader<'_>,
    guesses: &mut Guesses,
    room: u32,
) -> Result<Option<Members>, AllocError>
    ensures meant { IfOk result (λ found. IfSome found (λ xs.
        converted (λ ms. members_in ms no_members)
        (members (value (room + spare_levels)) (length reader.old) reader.old)
        ≡ Some (members_of xs, reader.new))) }
    ensures shallow { IfOk result (λ found. IfSome found (λ xs. members_depth (members_of xs) ≤ room)) }
    ensures shorter { IfOk result (λ found. IsSome found → length reader.new < length reader.old) }
{
    let mut found = Vec::with_capacity(alloc, guesses.members.room(room))?;
    'members: while true {
        match reader.next_key() {
            Ok(Some(name)) => {
                let name = Text::copy_of(alloc, name)?;
                match read_next(alloc, reader, guesses, room)? {
                    Some(value) => found.push(Member { name, value })?,
                    None => return Ok(None),
                }
            }
            Ok(None) => {
                guesses.members.keep(room, found.len());
                return match in_order(found, &mut guesses.orders, room) {
                    Some(all) => Ok(Some(Members::of(all))),
                    None => Ok(None),
                };
            }
            Err(_) => return Ok(None),
        }
    }
    Ok(None)
}
