//! Layer 6, programs: does calls of the record codec and of the files of a partition again and again, so that their time
//! can be taken from outside.
//! `codec_bench ROUNDS CALL ..` reads documents as JSON from standard input, one a line, as memory tables, between two of
//! which stands an empty line. A call of the codec is done on each document of the last table, and prints the length of its
//! record and a checksum. One of files is done on the tables, which are made once, and prints its line as soon as it is done.
#![tactic(auto)]

mod calls;
mod flushes;
mod forms;
mod merges;
mod rounds;
mod silent;
mod tables;

use anyhow::{Context, Result};
use calls::{Work, is_of_tables};
use rounds::{record_of_document, sum_of};
use serde_json::Value;
use std::{env, io};
use tc_json::doc_of;

fn main(rt: HostRuntime) -> Result<()> {
    let alloc = rt.alloc();
    let text = io::read_to_string(alloc, rt.reader())?;
    let mut words = env::args(&rt)?.skip(1);
    let rounds = words.next().context("no rounds")?.parse::<u32>()?;
    let mut work = None;
    for call in words {
        if is_of_tables(call.as_str()) {
            let ready = match work {
                Some(ready) => ready,
                None => Work::of(alloc, text.as_str())?,
            };
            let answer = ready.answer_of(alloc, call.as_str(), text.as_str(), rounds)?;
            println!(rt; "{call} {}", answer.as_str())?;
            work = Some(ready);
        } else {
            print_each(&rt, call.as_str(), text.as_str(), rounds)?;
        }
    }
    Ok(())
}

fn print_each(rt: &(impl Print + AllocGlobal), call: &str, text: &str, rounds: u32) -> Result<()> {
    let alloc = rt.alloc();
    let newest = text.split("\n\n").last().context("no table")?;
    for line in newest.lines() {
        let doc = doc_of(alloc, &Value::from_str(alloc, line)?)?;
        let record = record_of_document(alloc, &doc)?.context("no record spells the document")?;
        let sum = sum_of(alloc, call, &doc, record.as_slice(), rounds)?;
        println!(rt; "{call} {} {sum}", record.as_slice().len())?;
    }
    Ok(())
}
