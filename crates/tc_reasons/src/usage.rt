//! What is said of words that are no command line: the first one that does not fit, and all that would.

use crate::settings::{DEMO_LIMITS, RUN_SETTINGS};
use crate::shown::{Grouped, Plain};
use crate::unfit::{Number, Unfit, unfit_in};
use std::fmt;
use std::io::Error;
use tc_value::Text;

/// What may come after the folder.
const COMMANDS: &str = "run, demo N or check";

/// Says which word does not fit, and what would. Words that could not be read, since one is no text, are none here. The
/// commands are those that `tc_command` reads, which `clients/tests/test_messages.py` compares.
pub fn say_usage(rt: HostRuntime, words: Option<&[Text]>) -> Result<(), Error> {
    match words {
        Some(words) => say_unfit(rt, words)?,
        None => eprintln!(rt; "a word is not UTF-8")?,
    }
    eprintln!(rt;
        "FOLDER keeps the documents, and is made where it is missing; :memory: keeps them in memory, until the end"
    )?;
    eprintln!(rt;
        "run answers commands on standard input, a line of JSON each: upsert, delete, get, query, scan, collect, schema, flush"
    )?;
    eprintln!(rt; "the options of run:")?;
    for setting in RUN_SETTINGS {
        let name = setting.name;
        let limits = setting.limits;
        let unit = setting.unit;
        let default = Grouped(setting.default);
        eprintln!(rt; "  {name:<12}  {limits}{unit} (default {default})")?;
    }
    eprintln!(rt; "demo N answers N commands of its own, {DEMO_LIMITS}")?;
    eprintln!(rt;
        "check says whether the files of each partition are as a store leaves them, and changes nothing; it takes --partitions"
    )?;
    eprintln!(rt;
        "example: echo '{{\"op\":\"upsert\",\"doc\":{{\"id\":1,\"name\":\"Ada\"}}}}' | tuple_store store run"
    )
}

// Says which word is the first that does not fit, if one does not.
fn say_unfit(rt: HostRuntime, words: &[Text]) -> Result<(), Error> {
    match unfit_in(words) {
        None | Some(Unfit::Help) => Ok(()),
        Some(unfit) => eprintln!(rt; "{unfit}"),
    }
}

impl<'a> fmt::Display for Unfit<'a> {
    /// What is wrong, and what would fit.
    fn fmt<W: fmt::Write>(&self, f: &mut fmt::Formatter<W>) -> fmt::Result {
        match *self {
            Unfit::NoWord => write!(f, "no word: FOLDER comes first, and then {COMMANDS}"),
            Unfit::Help => f.write_str("help"),
            Unfit::FolderAlone { folder } => {
                let folder = Plain(folder);
                write!(f, "{folder}: a folder alone; {COMMANDS} comes next")
            }
            Unfit::Command { word, folder } => {
                let word = Plain(word);
                let folder = Plain(folder);
                write!(f, "{word}: after the folder {folder} comes {COMMANDS}")
            }
            Unfit::Option { word, command } => {
                let word = Plain(word);
                write!(f, "{word}: no option of {command}")
            }
            Unfit::Again { name } => write!(f, "{name}: given twice"),
            Unfit::NoNumber { name, limits } => write!(f, "{name}: a number is missing, {limits}"),
            Unfit::Number { number, limits } => {
                let form = form_of(number.text);
                write!(f, "{number}: {limits}{form}")
            }
            Unfit::AfterDemo { word } => {
                let word = Plain(word);
                write!(f, "{word}: demo takes one number, and nothing else")
            }
        }
    }
}

impl<'a> fmt::Display for Number<'a> {
    fn fmt<W: fmt::Write>(&self, f: &mut fmt::Formatter<W>) -> fmt::Result {
        let name = self.name;
        let between = self.between;
        let text = Plain(self.text);
        write!(f, "{name}{between}{text}")
    }
}

// What is wrong with the form of a number, if anything is.
fn form_of(text: &str) -> &'static str {
    if !text.chars().all(|letter| letter.is_ascii_digit()) {
        ", in digits alone"
    } else if text.starts_with('0') && text.len() > 1 {
        ", without a zero in front"
    } else {
        ""
    }
}
