//! The first word of a command line that does not fit.

use crate::settings::{CHECK_SETTINGS, DEMO_LIMITS, Limits, RUN_SETTINGS, Setting};
use tc_number::number_between;
use tc_value::Text;

/// The first word that does not fit, and what is wrong with it.
#[derive(Clone, Copy)]
pub(crate) enum Unfit<'a> {
    /// There is no word at all.
    NoWord,
    /// A word asks for help, and nothing is wrong.
    Help,
    /// No word comes after the folder.
    FolderAlone {
        folder: &'a str,
    },
    /// The word after the folder names no command.
    Command {
        word: &'a str,
        folder: &'a str,
    },
    /// A word after `run` or `check` is none of its options.
    Option {
        word: &'a str,
        command: &'static str,
    },
    /// An option is given again.
    Again {
        name: &'static str,
    },
    /// An option, or `demo`, ends without its number.
    NoNumber {
        name: &'static str,
        limits: Limits,
    },
    /// A number is out of form or out of its limits.
    Number {
        number: Number<'a>,
        limits: Limits,
    },
    /// A word of `demo` is not its one number.
    AfterDemo {
        word: &'a str,
    },
}

/// The text of a number as it was given: after a name, and a blank or an equals sign.
#[derive(Clone, Copy)]
pub(crate) struct Number<'a> {
    pub(crate) name: &'static str,
    pub(crate) between: char,
    pub(crate) text: &'a str,
}

/// A command that takes options.
#[derive(Clone, Copy)]
struct Command<'s> {
    name: &'static str,
    settings: &'s [Setting],
}

/// What may come next among the words of options.
#[derive(Clone, Copy)]
enum Next {
    Option,
    Number(Setting),
    End,
}

/// The first word that does not fit, of which the first one is the folder; none where all fit.
pub(crate) fn unfit_in<'a>(words: &'a [Text]) -> Option<Unfit<'a>> {
    match walk(words) {
        Ok(()) => None,
        Err(unfit) => Some(unfit),
    }
}

fn walk<'a>(words: &'a [Text]) -> Result<(), Unfit<'a>> {
    let Some((first, rest)) = words.split_first() else {
        return Err(Unfit::NoWord);
    };
    let folder = first.as_str();
    let Some((second, rest)) = rest.split_first() else {
        return Err(of_one_word(folder));
    };
    let word = second.as_str();
    if word == "run" {
        walk_run(rest)
    } else if word == "demo" {
        walk_demo(rest)
    } else if word == "check" {
        walk_check(rest)
    } else if asks_for_help(word) || word == "help" {
        Err(Unfit::Help)
    } else {
        Err(Unfit::Command { word, folder })
    }
}

// What is wrong where the folder is the only word.
fn of_one_word<'a>(folder: &'a str) -> Unfit<'a> {
    if asks_for_help(folder) || folder == "help" {
        Unfit::Help
    } else {
        Unfit::FolderAlone { folder }
    }
}

fn walk_run<'a>(words: &'a [Text]) -> Result<(), Unfit<'a>> {
    let run = Command {
        name: "run",
        settings: &RUN_SETTINGS,
    };
    walk_options(run, words)
}

fn walk_check<'a>(words: &'a [Text]) -> Result<(), Unfit<'a>> {
    let check = Command {
        name: "check",
        settings: &CHECK_SETTINGS,
    };
    walk_options(check, words)
}

fn walk_options<'a>(command: Command<'_>, words: &'a [Text]) -> Result<(), Unfit<'a>> {
    let mut next = Next::Option;
    for (at, word) in words.iter().enumerate() {
        let word = word.as_str();
        next = match next {
            Next::Option => after_option(command, words, at, word)?,
            Next::Number(setting) => after_number(setting, ' ', word)?,
            Next::End => return Err(no_option(command, word)),
        };
    }
    match next {
        Next::Number(setting) => Err(no_number(setting)),
        Next::Option | Next::End => Ok(()),
    }
}

// What may come after the word at this place, which is to be an option.
fn after_option<'a>(
    command: Command<'_>,
    words: &'a [Text],
    at: usize,
    word: &'a str,
) -> Result<Next, Unfit<'a>> {
    if word == "--" {
        return Ok(Next::End);
    }
    if asks_for_help(word) {
        return Err(Unfit::Help);
    }
    for &setting in command.settings {
        if let Some(rest) = word.strip_prefix(setting.name) {
            if rest.is_empty() {
                return first_of(words, at, setting, Next::Number(setting));
            }
            if let Some(text) = rest.strip_prefix('=') {
                let next = after_number(setting, '=', text)?;
                return first_of(words, at, setting, next);
            }
        }
    }
    Err(no_option(command, word))
}

fn no_option<'a>(command: Command<'_>, word: &'a str) -> Unfit<'a> {
    Unfit::Option {
        word,
        command: command.name,
    }
}

// What may come next, where no word in front of this place gives the option too.
fn first_of<'a>(
    words: &'a [Text],
    at: usize,
    setting: Setting,
    next: Next,
) -> Result<Next, Unfit<'a>> {
    for (place, word) in words.iter().enumerate() {
        if place < at && gives(word.as_str(), setting.name) {
            return Err(Unfit::Again { name: setting.name });
        }
    }
    Ok(next)
}

// Whether a word gives the option of this name, alone or with its number.
fn gives(word: &str, name: &str) -> bool {
    match word.strip_prefix(name) {
        Some(rest) => rest.is_empty() || rest.starts_with('='),
        None => false,
    }
}

// What may come after the number of an option.
fn after_number<'a>(setting: Setting, between: char, text: &'a str) -> Result<Next, Unfit<'a>> {
    if text.is_empty() || is_option(text) {
        return Err(no_number(setting));
    }
    let number = Number {
        name: setting.name,
        between,
        text,
    };
    judge(number, setting.limits)?;
    Ok(Next::Option)
}

fn no_number<'a>(setting: Setting) -> Unfit<'a> {
    Unfit::NoNumber {
        name: setting.name,
        limits: setting.limits,
    }
}

fn walk_demo<'a>(words: &'a [Text]) -> Result<(), Unfit<'a>> {
    let mut has_number = false;
    let mut has_ended = false;
    for word in words {
        let word = word.as_str();
        if word == "--" && !has_ended {
            has_ended = true;
        } else if asks_for_help(word) && !has_ended {
            return Err(Unfit::Help);
        } else if has_number || is_option(word) {
            return Err(Unfit::AfterDemo { word });
        } else {
            judge_demo(word)?;
            has_number = true;
        }
    }
    if has_number {
        Ok(())
    } else {
        Err(Unfit::NoNumber {
            name: "demo",
            limits: DEMO_LIMITS,
        })
    }
}

fn judge_demo<'a>(text: &'a str) -> Result<(), Unfit<'a>> {
    let number = Number {
        name: "demo",
        between: ' ',
        text,
    };
    judge(number, DEMO_LIMITS)
}

// Whether a number is in form, and within its limits.
fn judge<'a>(number: Number<'a>, limits: Limits) -> Result<(), Unfit<'a>> {
    match number_between(number.text, limits.least, limits.most) {
        Some(_) => Ok(()),
        None => Err(Unfit::Number { number, limits }),
    }
}

fn asks_for_help(word: &str) -> bool {
    word == "--help" || word == "-h"
}

// Whether a word begins as an option does. One dash alone, or in front of a digit, begins none.
fn is_option(word: &str) -> bool {
    match word.strip_prefix('-') {
        Some(rest) => match rest.chars().next() {
            Some(letter) => !letter.is_ascii_digit(),
            None => false,
        },
        None => false,
    }
}
