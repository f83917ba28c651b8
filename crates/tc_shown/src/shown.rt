//! What a partition shows to scans beside its engine.

ghost use Rattle.std.specs.Prelude.{◌≡◌, ◌<◌, ◌++◌, ◌∷◌, ◌⊎◌, [], true, false, None, All, length, map, option_map, IfOk, IsTrue, IsFalse, OnErr, OnOk};
ghost use Rattle.std.specs.Arc.{arc_value};
ghost use mathlib.Core.List.{IsPrefix};
ghost use Rattle.tc_log.specs.Writes.{IsWrite};
ghost use Rattle.tc_view.specs.declared.happened.Happened.TheVariants.{Placed};
ghost use Rattle.tc_view.specs.Changes.{after_change, happened};
ghost use Rattle.tc_view.specs.Holding.{Extend, Fits};
ghost use Rattle.tc_view.specs.Places.{awaited_by, kept_by};
ghost use Rattle.tc_shown.specs.Heads.{head_of};
ghost use Rattle.tc_shown.specs.Shown.{Reads, wrote, IsCurrent, IsPlaced};

use left_right::Absorb;
use std::alloc::{AllocError, Global};
use std::marker::Model;
use std::sync::{Arc, Wait};
use tc_bytes::Memory;
use tc_component::Component;
use tc_list::ComponentList;
use tc_log::Write;
use tc_memory::Sealed;
use tc_store::Frozen;
use tc_view::{Change, Chunk, Content, Lens, Publisher, Rooms, Step, View};

/// What a partition shows. It stands beside the partition's engine and not in it, and is told after the fact: behind a window,
/// what was written, and behind a call that moves documents, where they lie. So an engine needs no leave to wait. Each
/// call that adds to it publishes at once what it adds. Where one failed to, each further one fails too. Contracts see the history of
/// its view. It is not `Drop`, since it may be ended only when no lens is within: end it by `end`.
pub struct Shown<F: Frozen>
where
    View<F>: Absorb<Step<F>, State = Content<F>>,
{
    alloc: Global,
    publisher: Publisher<F>,
    rooms: Rooms,
    // What is shown: the components, whether a table is over them, and whether writes lie behind both.
    list: Arc<ComponentList<F>>,
    sealed: bool,
    written: bool,
    failed: bool,
}

impl<F: Frozen> Model for Shown<F>
where
    View<F>: Absorb<Step<F>, State = Content<F>>,
{
    ghost use Rattle.std.specs.Arc.{arc_value};
    ghost use Rattle.std.specs.Coded.{codes};
    ghost use Rattle.std.specs.Prelude.{◌≡◌, false};
    ghost use Rattle.logbook.specs.Pages.{book_coded};
    ghost use Rattle.tc_memory.specs.Table.{coded_table};
    ghost use Rattle.tc_schema_model.specs.CountedCode.{coded_counted};
    ghost use Rattle.tc_view.specs.Places.{awaited_by};
    ghost use Rattle.tc_shown.specs.Shown.{ShownState, IsCurrent, IsRemembered, state_of};

    ghost Value = { ShownState F F.Watch };

    ghost coded = { Prim.hlevel (codes, book_coded, coded_table, coded_counted) };

    ghost view = { λ s. state_of s.publisher s.failed };

    ghost invariant = { λ s. s.failed ≡ false → IsCurrent s.publisher × IsRemembered (arc_value s.list) s.sealed s.written (awaited_by s.publisher) };
}

impl<F: Frozen> Shown<F> {
    /// Shows these components, with nothing over them. Nobody reads it yet, so that it does not wait. Errs only for want of memory.
    pub fn open<R: Wait>(rt: &R, alloc: Global, list: &ComponentList<F>) -> Result<Shown<F>, Memory>
        requires names { Extend [] list.now }
        ensures { IfOk result (λ s. (s.history ≡ Placed list.now None ∷ []) × (s.failed ≡ false)) }
    {
        let (placed, change) = placing(alloc, list, None)?;
        let mut publisher = Publisher::new(rt, alloc)?;
        match publish(rt, &mut publisher, change) {
            Ok(()) => Ok(Shown {
                alloc,
                publisher,
                rooms: Rooms::new(alloc),
                list: placed,
                sealed: false,
                written: false,
                failed: false,
            }),
            Err(fault) => {
                publisher.end(rt);
                Err(fault)
            }
        }
    }

    /// Shows the writes of a frame, behind all that was shown. Where the frame has none, nothing changes. Errs only for want of
    /// memory, where a call failed before, and where there were more writes than a number counts.
    pub fn write<R: Wait>(&mut self, rt: &R, frame: Vec<Write>) -> Result<(), Memory>
        requires stored { All IsWrite frame.items }
        ensures failed { OnErr result ((self.new ≡ self.old) ⊎ (self.new.failed ≡ true)) }
        ensures wrote { OnOk result (self.new ≡ record self.old { history = self.old.history ++ wrote frame.items }) }
    {
        if self.failed {
            return Err(AllocError);
        }
        if frame.is_empty() {
            return Ok(());
        }
        let chunk = chunk_of(self.alloc, &mut self.rooms, frame)?;
        self.failed = true;
        publish(rt, &mut self.publisher, Change::Writes(chunk))?;
        self.written = true;
        self.failed = false;
        Ok(())
    }

    /// Shows where documents lie now: in these components, and in a table over them, if there is one. What was shown before is shown no
    /// more, its writes neither, so that these have to lie there too. Where documents lie there already, nothing changes. What left is
    /// shared no more: it is published twice, since the publisher keeps what it published before. Errs only for want of memory, and
    /// where a call failed before.
    pub fn place<R: Wait>(
        &mut self,
        rt: &R,
        list: &ComponentList<F>,
        sealed: Option<&Arc<Sealed>>,
    ) -> Result<(), Memory>
        requires names { Extend [] list.now }
        ensures failed { OnErr result ((self.new ≡ self.old) ⊎ (self.new.failed ≡ true)) }
        ensures placed { OnOk result (IsPlaced list.now (option_map (λ table. arc_value table.now) sealed.entry) self.old self.new) }
    {
        if self.failed {
            return Err(AllocError);
        }
        if lie_there(
            list,
            sealed.is_some(),
            &self.list,
            self.sealed,
            self.written,
        ) {
            return Ok(());
        }
        let (placed, change) = placing(self.alloc, list, sealed)?;
        self.failed = true;
        publish_twice(rt, &mut self.publisher, change)?;
        self.list = placed;
        self.sealed = sealed.is_some();
        self.written = false;
        self.failed = false;
        Ok(())
    }

    /// A lens for a scan. It keeps all that is shown now. Errs only for want of memory, while another one is out, and where a call
    /// failed before. A lens gives its place back where it is dropped.
    pub fn lend(&mut self) -> Result<Lens<F>, Memory>
        ensures lens { IfOk result (Reads self.old.book) }
        ensures all { IfOk result (λ l. (kept_by l).history ≡ self.old.history) }
        ensures same { self.new ≡ self.old }
    {
        if self.failed {
            return Err(AllocError);
        }
        self.publisher.lens()
    }

    /// Whether what a lens of this view keeps is a beginning of what happened in it. It always is, unless a call failed, and
    /// this tells so. Takes no memory.
    pub fn covers(&self, lens: &Lens<F>) -> bool
        requires lens { self.now.failed ≡ false → Reads self.now.book lens.now }
        ensures works { IsTrue result → self.now.failed ≡ false }
        ensures begins { IsTrue result → IsPrefix (kept_by lens.now).history self.now.history }
        ensures longer { IsFalse result → (self.now.failed ≡ true) ⊎ (length self.now.history < length (kept_by lens.now).history) }
    {
        !self.failed && self.publisher.covers(lens)
    }

    /// Ends it. It waits for a lens that is within.
    pub fn end<R: Wait>(self, rt: &R) {
        let Shown {
            alloc: _,
            publisher,
            rooms: _rooms,
            list: _list,
            sealed: _,
            written: _,
            failed: _,
        } = self;
        publisher.end(rt);
    }
}

/// The chunk of a frame, which is dropped behind it.
fn chunk_of(alloc: Global, rooms: &mut Rooms, frame: Vec<Write>) -> Result<Arc<Chunk>, Memory>
    ensures { IfOk result (λ chunk. arc_value chunk ≡ frame.items) }
{
    Ok(Arc::new(alloc, Chunk::of(alloc, rooms, &frame)?)?)
}

/// Appends a change and publishes it. After an `Err` the publisher must not be used but for `end`.
fn publish<F: Frozen, R: Wait>(
    rt: &R,
    publisher: &mut Publisher<F>,
    change: Change<F>,
) -> Result<(), Memory>
    requires current { IsCurrent publisher.old }
    requires fits { Fits change }
    ensures current { OnOk result (IsCurrent publisher.new) }
    ensures added { OnOk result (awaited_by publisher.new ≡ after_change (awaited_by publisher.old) change) }
    ensures book { OnOk result (publisher.new.history.seen.book ≡ publisher.old.history.seen.book) }
{
    publisher.append(change)?;
    publisher.publish(rt)
}

/// The same, and publishes again, so that nothing is shared any more that the change took out.
fn publish_twice<F: Frozen, R: Wait>(
    rt: &R,
    publisher: &mut Publisher<F>,
    change: Change<F>,
) -> Result<(), Memory>
    requires current { IsCurrent publisher.old }
    requires fits { Fits change }
    ensures current { OnOk result (IsCurrent publisher.new) }
    ensures added { OnOk result (awaited_by publisher.new ≡ after_change (awaited_by publisher.old) change) }
    ensures book { OnOk result (publisher.new.history.seen.book ≡ publisher.old.history.seen.book) }
{
    publish(rt, publisher, change)?;
    publisher.publish(rt)
}

/// The change by which documents lie in these components and in this table, with the share of the components that it has.
fn placing<F: Frozen>(
    alloc: Global,
    list: &ComponentList<F>,
    sealed: Option<&Arc<Sealed>>,
) -> Result<(Arc<ComponentList<F>>, Change<F>), Memory>
    requires names { Extend [] list.now }
    ensures list { IfOk result (λ r. arc_value r.0 ≡ list.now) }
    ensures change { IfOk result (λ r. happened r.1 ≡ Placed list.now (option_map (λ table. arc_value table.now) sealed.entry)) }
    ensures fits { IfOk result (λ r. Fits r.1) }
{
    let _components = list.as_slice();
    let placed = Arc::new(alloc, list.share()?)?;
    let change = Change::Placed {
        list: Arc::try_clone(&placed)?,
        sealed: share_of(sealed)?,
    };
    Ok((placed, change))
}

/// A share of a table, if there is one.
fn share_of(sealed: Option<&Arc<Sealed>>) -> Result<Option<Arc<Sealed>>, Memory>
    ensures { IfOk result (λ share. option_map arc_value share ≡ option_map (λ table. arc_value table.now) sealed.entry) }
{
    match sealed {
        Some(table) => Ok(Some(Arc::try_clone(table)?)),
        None => Ok(None),
    }
}

/// Whether documents lie in these components, and in a table over them or not, where they are shown already.
fn lie_there<F: Frozen>(
    list: &ComponentList<F>,
    sealed: bool,
    shown: &ComponentList<F>,
    shown_sealed: bool,
    written: bool,
) -> bool
    ensures headers { IsTrue result → map (λ c. c.index.head) list.now ≡ map (λ c. c.index.head) shown.now }
    ensures table { IsTrue result → sealed ≡ shown_sealed }
    ensures none_behind { IsTrue result → written ≡ false }
{
    !written && sealed == shown_sealed && have_same_heads(list.as_slice(), shown.as_slice())
}

/// Whether these components have the same headers, one after the other. Takes no memory.
fn have_same_heads<F: Frozen>(some: &[Arc<Component<F>>], others: &[Arc<Component<F>>]) -> bool
    ensures { IsTrue result → map head_of some.now ≡ map head_of others.now }
{
    if some.len() != others.len() {
        return false;
    }
    for at in 0..some.len() {
        if some[at].head() != others[at].head() {
            return false;
        }
    }
    true
}
