//! The calls of the partition at a desk, and that they leave it there.

ghost use Rattle.std.specs.Prelude.{◌≡◌, ◌<◌, ◌+◌, None, false, true, is_some, OnErr, OnOk};
ghost use Rattle.tc_part.specs.Ready.{LiesIn};
ghost use Rattle.part_rows.specs.Standing.{IsAtDesk};
ghost use Rattle.part_rows.specs.Waiting.{IsShortWrite};

use std::alloc::Global;
use tc_bytes::Bytes;
use tc_command::{Ask, Rows};
use tc_list::Run;
use tc_log::Write;
use tc_part::{Part, PartFault, Staged, parts_own_files};
use tc_part_model::{jobs_have_made, sealed_tables_can_flush};
use tc_store::MemStore;

/// Stages a write behind so many, at most.
pub(crate) fn stage(
    alloc: Global,
    part: &mut Part<MemStore>,
    write: Write,
    waiting: u32,
    stands: bool,
) -> Result<Staged, PartFault>
    requires desk { IsAtDesk part.old waiting stands }
    requires sound { part.old.failed ≡ false }
    requires few { waiting < 1024 }
    requires write { IsShortWrite write }
    ensures { IsAtDesk part.new (waiting + 1) stands }
{
    part.stage(alloc, write)
}

/// Commits what is staged.
pub(crate) fn commit(
    alloc: Global,
    part: &mut Part<MemStore>,
    waiting: u32,
    stands: bool,
) -> Result<(), PartFault>
    requires desk { IsAtDesk part.old waiting stands }
    requires sound { part.old.failed ≡ false }
    ensures ok { OnOk result (IsAtDesk part.new 0 stands) }
    ensures err { OnErr result (IsAtDesk part.new waiting stands) }
{
    part.commit(alloc)?;
    Ok(())
}

/// Seals the active table.
pub(crate) fn seal(
    alloc: Global,
    part: &mut Part<MemStore>,
    waiting: u32,
    stands: bool,
) -> Result<(), PartFault>
    requires desk { IsAtDesk part.old waiting stands }
    requires sound { part.old.failed ≡ false }
    requires standing { stands ≡ true }
    requires none_waits { waiting ≡ 0 }
    requires none_sealed { is_some part.old.sealed ≡ false }
    ensures { IsAtDesk part.new waiting stands }
{
    parts_own_files();
    part.seal(alloc)
}

/// Looks for the text of the document of a key.
pub(crate) fn lookup(
    alloc: Global,
    part: &mut Part<MemStore>,
    key: u64,
    waiting: u32,
    stands: bool,
) -> Result<Option<Bytes>, PartFault>
    requires desk { IsAtDesk part.old waiting stands }
    requires sound { part.old.failed ≡ false }
    ensures { IsAtDesk part.new waiting stands }
{
    part.lookup(alloc, key)
}

/// Asks for rows.
pub(crate) fn rows(
    alloc: Global,
    part: &mut Part<MemStore>,
    ask: &Ask,
    waiting: u32,
    stands: bool,
) -> Result<Rows, PartFault>
    requires desk { IsAtDesk part.old waiting stands }
    requires sound { part.old.failed ≡ false }
    ensures { IsAtDesk part.new waiting stands }
{
    part.rows(alloc, ask)
}

/// Flushes the sealed table on this thread.
pub(crate) fn flush(
    alloc: Global,
    part: &mut Part<MemStore>,
    waiting: u32,
    stands: bool,
) -> Result<(), PartFault>
    requires desk { IsAtDesk part.old waiting stands }
    requires sound { part.old.failed ≡ false }
    requires standing { stands ≡ true }
    requires sealed { is_some part.old.sealed ≡ true }
    ensures { IsAtDesk part.new waiting stands }
{
    sealed_tables_can_flush();
    jobs_have_made();
    parts_own_files();
    let job = part.begin_flush(alloc)?;
    let out = job.run(alloc);
    part.finish_flush(alloc, out)
}

/// Merges a run of two components or more on this thread.
pub(crate) fn merge(
    alloc: Global,
    part: &mut Part<MemStore>,
    run: Run,
    waiting: u32,
    stands: bool,
) -> Result<(), PartFault>
    requires desk { IsAtDesk part.old waiting stands }
    requires sound { part.old.failed ≡ false }
    requires standing { stands ≡ true }
    requires run { LiesIn part.old.list run }
    ensures { IsAtDesk part.new waiting stands }
{
    jobs_have_made();
    parts_own_files();
    let job = part.begin_merge(alloc, run)?;
    let out = job.run(alloc);
    part.finish_merge(alloc, out)
}

/// Removes files of components that left the list.
pub(crate) fn sweep(
    alloc: Global,
    part: &mut Part<MemStore>,
    waiting: u32,
    stands: bool,
) -> Result<(), PartFault>
    requires desk { IsAtDesk part.old waiting stands }
    requires sound { part.old.failed ≡ false }
    ensures { IsAtDesk part.new waiting stands }
{
    part.sweep(alloc)
}
