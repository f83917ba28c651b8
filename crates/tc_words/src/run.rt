//! The options of a run, of which a check has the first.
ghost use Rattle.std.specs.Prelude.{◌≡◌};
ghost use Rattle.clap.specs.Words.{found_of, rows_of};
ghost use Rattle.tc_words.specs.Options.{demo_options, number_in, options_in};
ghost use Rattle.tc_words.specs.Grammar.{partitions};

use clap::ArgMatches;
use tc_number::number_between;

/// The numbers of a run.
#[derive(Clone, Copy, Debug, PartialEq, Eq)]
pub struct Options {
    /// How many partitions the store has.
    pub partitions: u32,
    /// Bytes that a partition's active log may hold.
    pub memory: u64,
    /// Distinct names that a partition may hold.
    pub names: u32,
    /// Live documents that a partition may hold.
    pub docs: u32,
    /// Lines of the input that are worked on together.
    pub window: u32,
    /// How many components a partition lists before some are merged.
    pub merge: u32,
    /// Bytes that the components of one merge may have together; 0 stands for a merge of all.
    pub limit: u64,
}

/// The options that the matches of `run` give; none where a number is out of form or out of its range.
pub fn options_in(run: &ArgMatches<'_>) -> Option<Options>
    ensures { result ≡ options_in (rows_of (found_of run.now)) }
{
    Some(Options {
        partitions: partitions_in(run)?,
        memory: number_in(run, "memory", 4_096, 16_777_216, Some(MEMORY))?,
        names: number_in(run, "names", 1, 16_777_216, Some(NAMES))? as u32,
        docs: number_in(run, "docs", 1, 4_000_000_000, Some(DOCS))? as u32,
        window: number_in(run, "window", 1, 4_096, Some(WINDOW))? as u32,
        merge: number_in(run, "merge", 2, 8, Some(MERGE))? as u32,
        limit: number_in(run, "limit", 0, 1_099_511_627_776, Some(LIMIT))?,
    })
}

/// How many partitions the matches of `run` or `check` give; nothing where the number is out of form or out of its range.
pub fn partitions_in(matches: &ArgMatches<'_>) -> Option<u32>
    ensures { result ≡ number_in (rows_of (found_of matches.now)) partitions }
{
    Some(number_in(matches, "partitions", 1, 16, Some(PARTITIONS))? as u32)
}

/// The options of a demonstration: the defaults.
pub fn demo_options() -> Options
    ensures { result ≡ demo_options }
{
    Options {
        partitions: PARTITIONS as u32,
        memory: MEMORY,
        names: NAMES as u32,
        docs: DOCS as u32,
        window: WINDOW as u32,
        merge: MERGE as u32,
        limit: LIMIT,
    }
}

// The defaults.
const PARTITIONS: u64 = 2;

const MEMORY: u64 = 262_144;

const NAMES: u64 = 1_000_000;

const DOCS: u64 = 4_000_000_000;

const WINDOW: u64 = 64;

const MERGE: u64 = 4;

const LIMIT: u64 = 0;

// The number of an option, from `least` to `most`, or the default where the option is left out.
fn number_in(
    run: &ArgMatches<'_>,
    name: &str,
    least: u64,
    most: u64,
    default: Option<u64>,
) -> Option<u64>
    ensures { result ≡ number_in (rows_of (found_of run.now))
        (record { name = name.now; least = least; most = most; default = default }) }
{
    match run.get_str(name) {
        Some(text) => number_between(text, least, most),
        None => default,
    }
}
