//! The open files of a partition, sorted by their generations.

ghost use Rattle.std.specs.Prelude.{◌≡◌, ◌≤◌, ◌↔◌, true, List, Ok, None, All, IfOk, IfErr, IfSome, IsTrue};
ghost use Rattle.std.specs.List.Sorted.{IsStrictlySortedBy};
ghost use Rattle.tc_store.specs.NameOrder.{name_cmp};
ghost use Rattle.tc_recover.specs.declared.interval.Interval.{Interval as Generations};
ghost use Rattle.tc_recover.specs.Files.{names_in, IsLawfulName, AreLawful};
ghost use Rattle.tc_recover.specs.Sorting.{intervals_of as components_of, open_names as names_of, logs_above, Follow, GoTogether, IsClash};
ghost use Rattle.tc_recover.specs.Tilings.{end_of};

use crate::cause::FilesCause;
use crate::interval::Interval;
use crate::taken::Taken;
use crate::tiling::tiling_of;
use std::alloc::Global;
use tc_bytes::Memory;
use tc_store::{Damage, FileName, FileNames, Frozen};

/// The intervals of the components that count among the open files, the oldest first. `Damaged` has the names of all open
/// files: it comes exactly where the components do not tile the generations from 1 on, or the logs above them have a gap.
/// Makes no read.
pub fn sort_files<F: Frozen>(alloc: Global, files: &[Taken<F>]) -> Result<Vec<Interval>, FilesCause>
    requires ascend { IsStrictlySortedBy name_cmp (names_in files.now) }
    requires lawful { AreLawful files.now }
    ensures sorted { IfOk result (λ tiles. GoTogether (names_of files.now) tiles.items) }
    ensures refused { IfErr result (IsClash (names_of files.now)) }
{
    let names = open_names(alloc, files)?;
    match components_that_count(alloc, &names)? {
        Some(tiles) => Ok(tiles),
        None => Err(FilesCause::Damaged(Damage::Files {
            names: FileNames::of(names),
        })),
    }
}

/// The names of the open files.
fn open_names<F: Frozen>(alloc: Global, files: &[Taken<F>]) -> Result<Vec<FileName>, Memory>
    ensures { IfOk result (λ names. names.items ≡ names_of files.now) }
{
    let mut names = Vec::new(alloc);
    let mut rest = files;
    while let Some((file, behind)) = rest.split_first() {
        if file.open {
            names.push(file.name)?;
        }
        rest = behind;
    }
    Ok(names)
}

/// The intervals of the components that count among the files of these names, which are all open ones. `None` where the
/// components do not tile the generations from 1 on, or the logs above them have a gap. Errs only for want of memory.
fn components_that_count(alloc: Global, names: &[FileName]) -> Result<Option<Vec<Interval>>, Memory>
    requires ascend { IsStrictlySortedBy name_cmp names.now }
    requires lawful { All IsLawfulName names.now }
    ensures some { IfOk result (λ found. IfSome found (λ tiles. GoTogether names.now tiles.items)) }
    ensures none { result ≡ Ok None → (tiles : List Generations) → GoTogether names.now tiles → ⊥ }
{
    let intervals = intervals_of(alloc, names)?;
    let Some(tiles) = tiling_of(alloc, &intervals)? else {
        return Ok(None);
    };
    if logs_follow(last_of(&tiles), names) {
        Ok(Some(tiles))
    } else {
        Ok(None)
    }
}

/// The intervals of the components among these names.
fn intervals_of(alloc: Global, names: &[FileName]) -> Result<Vec<Interval>, Memory>
    ensures { IfOk result (λ intervals. intervals.items ≡ components_of names.now) }
{
    let mut intervals = Vec::new(alloc);
    let mut rest = names;
    while let Some((name, behind)) = rest.split_first() {
        if let FileName::Component { from, to } = *name {
            intervals.push(Interval { from, to })?;
        }
        rest = behind;
    }
    Ok(intervals)
}

/// The last generation of these tiles, or 0 where there is none.
pub fn last_of(tiles: &[Interval]) -> u64
    ensures { result ≡ end_of 0 tiles.now }
{
    match tiles.split_last() {
        Some((tile, _)) => tile.to,
        None => 0,
    }
}

/// Whether the logs above a generation follow each other from it on.
fn logs_follow(last: u64, names: &[FileName]) -> bool
    ensures exact { IsTrue result ↔ Follow last (logs_above last names.now) }
{
    let mut before = last;
    let mut rest = names;
    while let Some((name, behind)) = rest.split_first() {
        if let FileName::Log { generation } = *name {
            if last < generation {
                if generation - 1 != before {
                    return false;
                }
                before = generation;
            }
        }
        rest = behind;
    }
    true
}
