//! What is shown of each partition is kept up, behind what its engine did.

ghost use Rattle.std.specs.Prelude.{◌≡◌, ◌≤◌, ◌++◌, ℕ, [], All, length, vec_capacity, vec_len, OnOk};
ghost use Rattle.tc_keeper.specs.Places.{AtEach, IsAt};
ghost use Rattle.tc_log.specs.Writes.{IsWrite};
ghost use Rattle.tc_shown.specs.Shown.{wrote, ShownState};
ghost use Rattle.tc_keeper.specs.Showing.{IsPlacedOver, IsReadAsBefore, IsShownFirst, ShowsOwnOf, StaysOwn};

use crate::engines::Engines;
use std::alloc::Global;
use std::mem;
use std::sync::Wait;
use tc_bytes::Memory;
use tc_log::Write;
use tc_running::Pace;
use tc_shown::Shown;
use tc_store::{Frozen, Store};

/// Shows each partition as it was opened: its components, in ascending number. Errs only for want of memory.
pub(crate) fn show_all<R: Wait, S: Store, P: Pace>(
    rt: &R,
    alloc: Global,
    engines: &Engines<S, P>,
    shown: &mut Vec<Shown<S::Frozen>>,
) -> Result<(), Memory>
    requires none { (shown.old.items ≡ []) × (vec_len shown.old ≡ 0) }
    requires room { length engines.now ≤ vec_capacity shown.old }
    ensures shown { OnOk result (AtEach (λ p e s. IsShownFirst e s) 0 engines.now shown.new.items) }
    ensures own { OnOk result (AtEach (ShowsOwnOf S.Frozen.content) 0 engines.now shown.new.items) }
{
    for at in 0..engines.len() {
        engines.components_are_own(at);
        let first = Shown::open(rt, alloc, engines.list(at))?;
        shown.push_reserved(first);
    }
    Ok(())
}

/// Shows the frames of a window, one of each partition. Errs only for want of memory.
pub(crate) fn write_all<R: Wait, F: Frozen>(
    rt: &R,
    alloc: Global,
    shown: &mut Vec<Shown<F>>,
    frames: &mut Vec<Vec<Write>>,
) -> Result<(), Memory>
    requires as_many { length shown.old.items ≡ length frames.old.items }
    requires stored { All (λ frame. All IsWrite frame.items) frames.old.items }
    ensures wrote { OnOk result (AtEach (λ p (old new : ShownState F F.Watch). IsAt p frames.old.items (λ frame. new ≡ record old { history = old.history ++ wrote frame.items })) 0 shown.old.items shown.new.items) }
    ensures books { AtEach (λ p old new. IsReadAsBefore old new) 0 shown.old.items shown.new.items }
    ensures own { AtEach (λ p old new. (number count : ℕ) → StaysOwn F.content number count old new) 0 shown.old.items shown.new.items }
{
    for at in 0..shown.len() {
        let frame = mem::replace(&mut frames[at], Vec::new(alloc));
        shown[at].write(rt, frame)?;
    }
    Ok(())
}

/// Shows where the documents of each partition lie whose active table has no entry. So what is shown of it changes only where its
/// table was sealed or flushed: between two of these it has further writes, and goes on to have the components that were listed
/// then. Errs only for want of memory.
pub(crate) fn place_all<R: Wait, S: Store, P: Pace>(
    rt: &R,
    engines: &Engines<S, P>,
    shown: &mut Vec<Shown<S::Frozen>>,
) -> Result<(), Memory>
    requires as_many { length shown.old.items ≡ length engines.now }
    ensures placed { OnOk result (AtEach (λ p (old new : ShownState S.Frozen S.Watch). IsAt p engines.now (λ e. IsPlacedOver e old new)) 0 shown.old.items shown.new.items) }
    ensures books { AtEach (λ p old new. IsReadAsBefore old new) 0 shown.old.items shown.new.items }
    ensures own { AtEach (ShowsOwnOf S.Frozen.content) 0 engines.now shown.old.items → AtEach (ShowsOwnOf S.Frozen.content) 0 engines.now shown.new.items }
{
    for at in 0..shown.len() {
        if engines.active_len(at) == 0 {
            engines.components_are_own(at);
            shown[at].place(rt, engines.list(at), engines.sealed(at))?;
        }
    }
    Ok(())
}

/// Ends what is shown. It waits for lenses that are within.
pub(crate) fn end_all<R: Wait, F: Frozen>(rt: &R, shown: Vec<Shown<F>>) {
    let mut shown = shown;
    for _ in 0..shown.len() {
        let Some(last) = shown.pop() else {
            unreachable!();
        };
        last.end(rt);
    }
    shown.destroy_empty();
}
