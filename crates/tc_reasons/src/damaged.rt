//! What is said of files that do not hold what they should.

use crate::listing::{file_path, names_at, partition_path};
use crate::misfit::{Interval, Misfit, has, misfit_in};
use crate::shown::Plain;
use std::io::Error;
use tc_files::file_text;
use tc_store::{Damage, FileName};

/// The mark of a kind of file: the text that it begins with, and the digit of the newest format that this program reads.
#[derive(Clone, Copy)]
struct Mark {
    family: &'static str,
    newest: u8,
}

const COMPONENT: Mark = Mark {
    family: "TCC",
    newest: b'2',
};

const LOG: Mark = Mark {
    family: "TCL",
    newest: b'1',
};

/// Where the mark of a file stands, at the front of its header.
const MARK_AT: u64 = 1;

/// Says what is known of the damage.
pub fn say_damage(
    rt: HostRuntime,
    folder: &str,
    partition: u32,
    damage: &Damage,
) -> Result<(), Error> {
    let path = partition_path(rt.alloc(), folder, partition)?;
    match damage {
        Damage::Bytes { file, place, bytes } => {
            if *place == MARK_AT {
                say_header(rt, folder, path.as_str(), *file, bytes.as_slice())
            } else {
                say_bytes(rt, folder, path.as_str(), *file)
            }
        }
        Damage::Files { names } => say_misfit(rt, path.as_str(), names.as_slice()),
    }
}

// A header is of a later format, or damaged.
fn say_header(
    rt: HostRuntime,
    folder: &str,
    path: &str,
    file: FileName,
    header: &[u8],
) -> Result<(), Error> {
    let mark = mark_of(file);
    let Some(digit) = later_format(mark, header) else {
        return say_bytes(rt, folder, path, file);
    };
    let name = file_text(rt.alloc(), file)?;
    let name = name.as_str();
    let family = mark.family;
    eprintln!(rt;
        "{name} has format {family}{digit}, which this program does not know: use a newer one"
    )
}

fn mark_of(file: FileName) -> Mark {
    match file {
        FileName::Component { .. } => COMPONENT,
        FileName::Log { .. } => LOG,
    }
}

// The digit of a format that is later than those which this program reads; none where a header begins with no mark of this
// kind, or with one that is known.
fn later_format(mark: Mark, header: &[u8]) -> Option<char> {
    match header {
        [a, b, c, digit, ..]
            if mark.family.as_bytes() == [*a, *b, *c].as_slice() && is_later(mark, *digit) => {
            Some(char::from(*digit))
        }
        _ => None,
    }
}

fn is_later(mark: Mark, digit: u8) -> bool {
    digit.is_ascii_digit() && digit > mark.newest
}

fn say_bytes(rt: HostRuntime, folder: &str, path: &str, file: FileName) -> Result<(), Error> {
    let file = file_path(rt.alloc(), path, file)?;
    let place = Plain(file.as_str());
    let folder = Plain(folder);
    eprintln!(rt; "{place} is not as it was written: restore {folder} from a copy that is whole")
}

// Says which files are open, and where they do not follow each other.
fn say_misfit(rt: HostRuntime, path: &str, names: &[FileName]) -> Result<(), Error> {
    let place = Plain(path);
    eprint!(rt; "{place} has")?;
    for name in names {
        let name = file_text(rt.alloc(), *name)?;
        let name = name.as_str();
        eprint!(rt; " {name}")?;
    }
    eprintln!(rt; "")?;
    match misfit_in(names) {
        Some(Misfit::Missing { first, last }) => say_missing(rt, path, names, first, last),
        Some(Misfit::Overlap { older, newer }) => say_overlap(rt, older, newer),
        None => Ok(()),
    }
}

fn say_missing(
    rt: HostRuntime,
    path: &str,
    names: &[FileName],
    first: u64,
    last: u64,
) -> Result<(), Error> {
    if first == last {
        eprintln!(rt; "generation {first} is missing")?;
    } else {
        eprintln!(rt; "generations {first} to {last} are missing")?;
    }
    for name in names_at(rt, path)? {
        if has(name, first) && !names.contains(&name) {
            let name = file_text(rt.alloc(), name)?;
            let name = name.as_str();
            eprintln!(rt;
                "{name} is there, but was never finished, or its first byte was changed"
            )?;
        }
    }
    Ok(())
}

fn say_overlap(rt: HostRuntime, older: Interval, newer: Interval) -> Result<(), Error> {
    let older = file_text(
        rt.alloc(),
        FileName::Component {
            from: older.from,
            to: older.to,
        },
    )?;
    let newer = file_text(
        rt.alloc(),
        FileName::Component {
            from: newer.from,
            to: newer.to,
        },
    )?;
    let older = older.as_str();
    let newer = newer.as_str();
    eprintln!(rt;
        "{older} and {newer} have generations in common, and neither has all of the other"
    )
}
