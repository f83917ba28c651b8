//! The command line as `clap` reads it.
ghost use Rattle.std.specs.Prelude.{◌≡◌, ◌≢◌, IfOk, IfErr, None, false, map};
ghost use Rattle.clap.specs.Words.{app_of, kind_of, rule_of, shape_of, subcommand_rows_of};
ghost use Rattle.clap.specs.declared.builder.command.Command.TheViews.{out-Command as fields_of};
ghost use Rattle.clap.specs.declared.error.kind.ErrorKind.TheVariants.{OutOfMemory};
ghost use Rattle.tc_words.specs.Grammar.{check_shape, commands_rule, demo_shape, grammar, named_matches, option_rule, run_shape};

use clap::{Arg, ArgAction, ArgMatches, Command, Error};
use std::alloc::{AllocError, Global};

/// What `clap` makes of the words, of which the first names a subcommand.
pub fn matches_of<'a>(alloc: Global, words: &'a [&'a str]) -> Result<ArgMatches<'a>, Error>
    ensures taken { IfOk result (λ matches. named_matches (map (λ word. word.now) words.entry.now)
        ≡ subcommand_rows_of matches) }
    ensures refused { IfErr result (λ error. kind_of error ≢ OutOfMemory
        → named_matches (map (λ word. word.now) words.entry.now) ≡ None) }
{
    command_line(alloc)?.try_get_matches_from(words)
}

// The whole command line.
fn command_line<'a>(alloc: Global) -> Result<Command<'a>, AllocError>
    ensures { IfOk result (λ command. app_of command ≡ grammar) }
{
    Command::new(alloc, "tuple_store")
        .no_binary_name(true)
        .subcommand_required(true)
        .subcommand(run(alloc)?)?
        .subcommand(demo(alloc)?)?
        .subcommand(check(alloc)?)
}

// The subcommand `run`.
fn run<'a>(alloc: Global) -> Result<Command<'a>, AllocError>
    ensures local { IfOk result (λ command. (fields_of command).has_globals ≡ false) }
    ensures shape { IfOk result (λ command. shape_of command ≡ run_shape) }
{
    Command::new(alloc, "run")
        .arg(option(alloc, "partitions"))?
        .arg(option(alloc, "memory"))?
        .arg(option(alloc, "names"))?
        .arg(option(alloc, "docs"))?
        .arg(option(alloc, "window"))?
        .arg(option(alloc, "merge"))?
        .arg(option(alloc, "limit"))
}

// The subcommand `demo`.
fn demo<'a>(alloc: Global) -> Result<Command<'a>, AllocError>
    ensures local { IfOk result (λ command. (fields_of command).has_globals ≡ false) }
    ensures shape { IfOk result (λ command. shape_of command ≡ demo_shape) }
{
    Command::new(alloc, "demo").arg(commands(alloc))
}

// The subcommand `check`.
fn check<'a>(alloc: Global) -> Result<Command<'a>, AllocError>
    ensures local { IfOk result (λ command. (fields_of command).has_globals ≡ false) }
    ensures shape { IfOk result (λ command. shape_of command ≡ check_shape) }
{
    Command::new(alloc, "check").arg(option(alloc, "partitions"))
}

// The number of commands, which stands by itself.
fn commands<'a>(alloc: Global) -> Arg<'a>
    ensures local { result.global ≡ false }
    ensures rule { rule_of result ≡ commands_rule }
{
    Arg::new(alloc, "commands")
        .required(true)
        .action(ArgAction::Set)
}

// The option `--name`, with one value.
fn option<'a>(alloc: Global, name: &'a str) -> Arg<'a>
    ensures local { result.global ≡ false }
    ensures rule { rule_of result ≡ option_rule name.entry.now false }
{
    Arg::new(alloc, name).long(name).action(ArgAction::Set)
}
