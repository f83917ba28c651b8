//! Lenses on what partitions show, and the watches of their readers, are lent to a scan and come back.

ghost use Rattle.std.specs.Prelude.{◌≡◌, ◌≤◌, ℕ, [], true, false, All, None, Option, Some, length, map, is_some, vec_capacity, vec_len, IfOk, IsTrue};
ghost use mathlib.Core.List.{IsPrefix};
ghost use Rattle.tc_keeper.specs.Places.{AtEach, IsAt};
ghost use Rattle.tc_keeper.specs.Standing.{HoldWorld, KeepWorlds};
ghost use Rattle.tc_keeper.specs.WithJobs.{with_reader};
ghost use Rattle.tc_run_model.specs.World.{World};
ghost use Rattle.tc_shown.specs.Shown.{Reads};
ghost use Rattle.tc_view.specs.Places.{kept_by};

use crate::engines::Engines;
use std::alloc::Global;
use tc_bytes::Memory;
use tc_running::Pace;
use tc_shown::{Pass, Shown};
use tc_store::{Frozen, Store};
use tc_view::Lens;
use tc_work::Seen;

/// A lens on what each partition shows. Errs only for want of memory.
pub(crate) fn lend_lenses<F: Frozen>(
    alloc: Global,
    shown: &mut Vec<Shown<F>>,
) -> Result<Vec<Lens<F>>, Memory>
    ensures same { shown.new.items ≡ shown.old.items }
    ensures lent { IfOk result (λ lenses. AtEach (λ p s lens. Reads s.book lens × ((kept_by lens).history ≡ s.history)) 0 shown.old.items lenses.items) }
{
    let mut lenses = Vec::new(alloc);
    for at in 0..shown.len() {
        let lens = shown[at].lend()?;
        lenses.push(lens)?;
    }
    Ok(lenses)
}

/// Lends the readers' watches of all partitions, each beside the lens on what it shows. There is room for as many passes.
pub(crate) fn lend_watches<S: Store, P: Pace>(
    engines: &mut Engines<S, P>,
    lenses: Vec<Lens<S::Frozen>>,
    mut passes: Vec<Pass<S::Frozen>>,
) -> Vec<Pass<S::Frozen>>
    requires as_many { length lenses.items ≡ length engines.old }
    requires none { (passes.items ≡ []) × (vec_len passes ≡ 0) }
    requires room { length lenses.items ≤ vec_capacity passes }
    requires home { All (λ e. is_some e.engine.part.reader ≡ true) engines.old }
    ensures lenses { map (λ pass. pass.lens) result.items ≡ lenses.items }
    ensures watches { AtEach (λ p e pass. Some pass.watch ≡ e.engine.part.reader) 0 engines.old result.items }
    ensures out { AtEach (λ p old new. new ≡ with_reader None old) 0 engines.old engines.new }
    ensures held { (only : Option ℕ) (w : World) → HoldWorld ⟦<S as Seen>⟧.eyes only engines.old w → HoldWorld ⟦<S as Seen>⟧.eyes only engines.new w }
{
    for lens in lenses {
        let watch = engines.lend_watch(passes.len());
        passes.push_reserved(Pass { lens, watch });
    }
    passes
}

/// Takes the watches of a scan back, and answers whether what its lenses keep is a beginning of what each partition shows. It
/// always is, unless showing failed. The lenses give their places back.
pub(crate) fn take_back<S: Store, P: Pace>(
    engines: &mut Engines<S, P>,
    shown: &[Shown<S::Frozen>],
    passes: Vec<Pass<S::Frozen>>,
) -> bool
    requires as_many { (length passes.items ≡ length engines.old) × (length shown.now ≡ length engines.old) }
    requires out { All (λ e. e.engine.part.reader ≡ None) engines.old }
    requires lenses { AtEach (λ p s pass. s.failed ≡ false → Reads s.book pass.lens) 0 shown.now passes.items }
    ensures covers { IsTrue result → AtEach (λ p s pass. (s.failed ≡ false) × IsPrefix (kept_by pass.lens).history s.history) 0 shown.now passes.items }
    ensures home { AtEach (λ p old new. IsAt p passes.items (λ pass. new ≡ with_reader (Some pass.watch) old)) 0 engines.old engines.new }
    ensures held { (only : Option ℕ) (w : World) → HoldWorld ⟦<S as Seen>⟧.eyes only engines.old w → HoldWorld ⟦<S as Seen>⟧.eyes only engines.new w }
    ensures kept { (only : Option ℕ) (w v : World) → KeepWorlds ⟦<S as Seen>⟧.eyes only engines.old w v → KeepWorlds ⟦<S as Seen>⟧.eyes only engines.new w v }
{
    let mut at = 0;
    let mut covered = true;
    for pass in passes {
        let Pass { lens, watch } = pass;
        engines.take_watch(at, watch);
        covered = covers_too(covered, &shown[at], &lens);
        at += 1;
    }
    covered
}

// Whether what is shown covers this lens, and what was shown of the others covered theirs.
fn covers_too<F: Frozen>(covered: bool, shown: &Shown<F>, lens: &Lens<F>) -> bool
    requires lens { shown.now.failed ≡ false → Reads shown.now.book lens.now }
    ensures others { IsTrue result → IsTrue covered }
    ensures works { IsTrue result → shown.now.failed ≡ false }
    ensures begins { IsTrue result → IsPrefix (kept_by lens.now).history shown.now.history }
{
    shown.covers(lens) && covered
}
