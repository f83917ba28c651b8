//! What words ask for: a run, or a demonstration.
ghost use Rattle.std.specs.Prelude.{◌≡◌, option_and_then};
ghost use Rattle.clap.specs.Words.{found_of, rows_of, subcommand_rows_of};
ghost use Rattle.tc_words.specs.Options.{check_in, commands_in, invocation_in};

use crate::run::{Options, demo_options, options_in, partitions_in};
use clap::ArgMatches;
use tc_number::number_between;

/// What is to be done.
#[derive(Clone, Copy, Debug, PartialEq, Eq)]
pub enum Invocation {
    /// Lines are read and answered.
    Run(Options),
    /// So many generated commands are answered, and then one for the schema.
    Demo { commands: u32, options: Options },
}

/// What the matches of the command line ask for; nothing where a number is out of form or out of its range.
pub fn invocation_in(matches: &ArgMatches<'_>) -> Option<Invocation>
    ensures { result ≡ option_and_then invocation_in (subcommand_rows_of matches.now) }
{
    match matches.subcommand() {
        Some((name, found)) => named(name, found),
        None => None,
    }
}

// What the subcommand of this name asks for.
fn named(name: &str, found: &ArgMatches<'_>) -> Option<Invocation>
    ensures { result ≡ invocation_in (name.now, rows_of (found_of found.now)) }
{
    if name == "run" {
        Some(Invocation::Run(options_in(found)?))
    } else if name == "demo" {
        Some(Invocation::Demo {
            commands: commands_in(found)? as u32,
            options: demo_options(),
        })
    } else {
        None
    }
}

/// How many partitions the matches of the command line have checked; nothing where they ask for no check, or where the number
/// is out of form or out of its range.
pub fn check_in(matches: &ArgMatches<'_>) -> Option<u32>
    ensures { result ≡ option_and_then check_in (subcommand_rows_of matches.now) }
{
    match matches.subcommand() {
        Some((name, found)) => checked(name, found),
        None => None,
    }
}

// How many partitions the subcommand of this name has checked.
fn checked(name: &str, found: &ArgMatches<'_>) -> Option<u32>
    ensures { result ≡ check_in (name.now, rows_of (found_of found.now)) }
{
    if name == "check" {
        partitions_in(found)
    } else {
        None
    }
}

// How many commands a demonstration has.
fn commands_in(demo: &ArgMatches<'_>) -> Option<u64>
    ensures { result ≡ commands_in (rows_of (found_of demo.now)) }
{
    match demo.get_str("commands") {
        Some(text) => number_between(text, 1, MAX_COMMANDS),
        None => None,
    }
}

// The most commands of a demonstration.
const MAX_COMMANDS: u64 = 1_000_000;
