//! A reader of lines, which keeps the memory that reading needs from line to line.

ghost use Rattle.std.specs.Prelude.{◌≡◌, ◌≤◌, IfOk, IfErr, IfSome};
ghost use Rattle.tc_model.specs.Json.{json_of};
ghost use Rattle.tc_model.specs.Limits.{max_depth};
ghost use Rattle.tc_model.specs.Tree.{depth};
ghost use Rattle.tc_request_model.specs.Request.{request_of, request_if_json, upsert_of as upsert_meant};
ghost use Rattle.tc_value.specs.Meaning.{tree_of};
ghost use Rattle.tc_command.specs.Commands.{request_by, IsLawful, IsOfLine};

use crate::upserts::{may_upsert, upserted_in};
use std::alloc::{AllocError, Global};
use std::str;
use tc_command::{Command, MAX_LINE, ParseFault, parse, upsert_of};
use tc_doc_reader::DocReader;
use tc_value::Doc;

/// Reads the commands of lines. Its memory grows to what the longest upsert needs, and is kept.
#[derive(Drop)]
pub struct CommandReader {
    docs: DocReader,
}

impl CommandReader {
    /// A reader. Takes no memory before the first line.
    pub fn new(alloc: Global) -> CommandReader {
        CommandReader {
            docs: DocReader::new(alloc),
        }
    }

    /// The command that a line asks for, as [`parse`] tells it. The document of most upserts is read without a JSON value
    /// in between.
    pub fn parse(&mut self, alloc: Global, line: &[u8]) -> Result<Command, ParseFault>
        ensures asked { IfSome (request_by result) (λ r. request_of line.now ≡ r) }
        ensures lawful { IfOk result IsLawful }
        ensures of_line { IfErr result IsOfLine }
    {
        if line.len() > MAX_LINE || !may_upsert(line) {
            return parse(alloc, line);
        }
        match self.read_upsert(alloc, line)? {
            Some(doc) => upsert_of(doc),
            None => parse(alloc, line),
        }
    }

    // The document of a line that is an upsert. `None` says nothing of the line.
    fn read_upsert(&mut self, alloc: Global, line: &[u8]) -> Result<Option<Doc>, AllocError>
        ensures asked { IfOk result (λ found. IfSome found
            (λ doc. request_if_json (json_of line.now) ≡ upsert_meant (tree_of doc))) }
        ensures shallow { IfOk result (λ found. IfSome found (λ doc. depth (tree_of doc) ≤ max_depth)) }
    {
        let Ok(text) = str::from_utf8(line) else {
            return Ok(None);
        };
        match self.docs.read(alloc, text)? {
            Some(whole) => Ok(upserted_in(whole)),
            None => Ok(None),
        }
    }
}
