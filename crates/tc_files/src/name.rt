//! How the files are called.

ghost use Rattle.std.specs.Prelude.{◌≡◌, ◌∷◌, IfOk, string_bytes};
ghost use Rattle.tc_files.specs.Names.{name_text, IsCalled};

use std::alloc::{AllocError, Global};
use tc_number::{number_between, numbers_are_printed};
use tc_store::FileName;

/// The last generation.
const MAX_GENERATION: u64 = 0x7fff_ffff_ffff_ffff;

/// How a file is called: `c-F-T` or `l-G`.
pub fn file_text(alloc: Global, name: FileName) -> Result<String, AllocError>
    ensures { IfOk result (λ text. string_bytes text ≡ name_text name) }
{
    match name {
        FileName::Component { from, to } => format!(in alloc; "c-{from}-{to}"),
        FileName::Log { generation } => format!(in alloc; "l-{generation}"),
    }
}

/// The file that is called so; none where no file of a store is. Takes no memory.
pub fn name_in(text: &str) -> Option<FileName>
    ensures { IsCalled text.now result }
{
    if let Some(rest) = text.strip_prefix("c-") {
        return component_in(rest);
    }
    match text.strip_prefix("l-") {
        Some(rest) => log_in(rest),
        None => None,
    }
}

// The component whose generations stand behind `c-`.
fn component_in(text: &str) -> Option<FileName>
    ensures { IsCalled (99 ∷ 45 ∷ text.now) result }
{
    numbers_are_printed();
    let (from, to) = text.split_once('-')?;
    let from = number_between(from, 1, MAX_GENERATION)?;
    let to = number_between(to, from, MAX_GENERATION)?;
    Some(FileName::Component { from, to })
}

// The log whose generation stands behind `l-`.
fn log_in(text: &str) -> Option<FileName>
    ensures { IsCalled (108 ∷ 45 ∷ text.now) result }
{
    numbers_are_printed();
    let generation = number_between(text, 1, MAX_GENERATION)?;
    Some(FileName::Log { generation })
}
