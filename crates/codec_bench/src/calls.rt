//! Calls on all documents of standard input, as memory tables of a partition.

use crate::flushes::{Below, asked, flushed, flushed_again};
use crate::merges::{
    Asked, Records, Shared, components_of, copied_again, judged_again, merged_again, records_of,
};
use crate::tables::tables_of;
use anyhow::{Context, Result, bail};
use serde_json::Value;
use std::alloc::Global;
use std::sync::Arc;
use tc_memory::Sealed;

/// What calls are done on, made once, so that those of one run are measured by turns over the same bytes: the newest table
/// and what it is flushed over, the components of all tables, and the records of their merge, where there are two.
#[derive(Drop)]
pub(crate) struct Work {
    newest: Arc<Sealed>,
    below: Below,
    run: Vec<Shared>,
    records: Records,
}

impl Work {
    /// The work of the tables of a text.
    pub(crate) fn of(alloc: Global, text: &str) -> Result<Work> {
        let mut tables = tables_of(alloc, text)?;
        let newest = tables.pop().context("no table")?;
        let mut run = components_of(alloc, &tables)?;
        let below = match run.last() {
            Some(component) => Below::behind(alloc, component)?,
            None => Below::none(alloc),
        };
        run.push(Arc::new(alloc, flushed(alloc, &newest, &below)?)?)?;
        let records = if tables.is_empty() {
            Records::none(alloc)
        } else {
            records_of(alloc, &run)?
        };
        Ok(Work {
            newest,
            below,
            run,
            records,
        })
    }

    /// Does a call by its name so often: on the newest table, over components of the tables before it, or on the components
    /// of all tables.
    pub(crate) fn answer_of(
        &self,
        alloc: Global,
        call: &str,
        text: &str,
        rounds: u32,
    ) -> Result<String> {
        match call {
            "parse" => parsed(alloc, text, rounds),
            "counted" | "flush" => self.of_newest(alloc, call, rounds),
            "judge" => self.judged(alloc, Asked::Either, rounds),
            "numbered" => self.judged(alloc, Asked::Numbered, rounds),
            "merge" => {
                let made = merged_again(alloc, &self.run, rounds)?;
                Ok(format!(in alloc; "{} reads, {} bytes", made.reads, made.bytes)?)
            }
            "copy" => {
                let made = copied_again(alloc, &self.records, rounds)?;
                Ok(format!(in alloc; "{} reads, {} bytes", made.reads, made.bytes)?)
            }
            other => bail!("no call {other}"),
        }
    }

    fn judged(&self, alloc: Global, asked: Asked, rounds: u32) -> Result<String> {
        let records = judged_again(&self.records, asked, rounds)?;
        Ok(format!(in alloc; "{records} records")?)
    }

    fn of_newest(&self, alloc: Global, call: &str, rounds: u32) -> Result<String> {
        let entries = self.newest.len();
        if call == "counted" {
            let yes = asked(alloc, &self.newest, &self.below, rounds)?;
            return Ok(format!(in alloc; "{entries} entries, {yes} times yes")?);
        }
        let made = flushed_again(alloc, &self.newest, &self.below, rounds)?;
        Ok(format!(in alloc;
            "{entries} entries, {} writes, {} bytes",
            made.writes, made.bytes
        )?)
    }
}

/// Whether the call is one on all documents.
pub(crate) fn is_of_tables(call: &str) -> bool {
    [
        "parse", "counted", "flush", "judge", "numbered", "merge", "copy",
    ]
    .contains(&call)
}

/// Reads each line of the newest table as JSON.
fn parsed(alloc: Global, text: &str, rounds: u32) -> Result<String> {
    let newest = text.split("\n\n").last().context("no table")?;
    let mut objects = 0u64;
    for _ in 0..rounds {
        for line in newest.lines() {
            if Value::from_str(alloc, line)?.is_object() {
                objects = objects.wrapping_add(1);
            }
        }
    }
    Ok(format!(in alloc; "{objects} objects")?)
}
