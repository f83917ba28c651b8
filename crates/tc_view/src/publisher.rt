//! The writer of a view.

ghost use Rattle.std.specs.Prelude.{◌≡◌, ◌<◌, [], Some, IfOk, OnOk, OnErr, IsTrue, IsFalse, MatchResult};
ghost use mathlib.Core.List.{IsPrefix};
ghost use Rattle.left_right.specs.Sides.{view};
ghost use Rattle.tc_view.specs.Changes.{after_change};
ghost use Rattle.tc_view.specs.Holding.{Fits};
ghost use Rattle.tc_view.specs.Places.{shown_by, told_by, kept_by, published_by, awaited_by, shown_of, next_of, IsOpenTo, IsLensOf, IsReady};
ghost use Rattle.tc_view.specs.Rules.{IsViewOf, opening};
ghost use Rattle.tc_view.specs.Views.{content_of, applied};

use crate::change::Change;
use crate::history::History;
use crate::lens::Lens;
use crate::mark::Mark;
use crate::rule::{Agrees, Key, Notes, Opens, Stays, Takes};
use crate::snapshot::{Note, Snapshot};
use crate::step::Step;
use crate::view::View;
use core::mem::replace_with;
use left_right::Absorb;
use left_right::writer::Writer;
use std::alloc::{AllocError, Global};
use std::sync::{Arc, Wait};
use tc_bytes::Memory;
use tc_list::ComponentList;
use tc_store::Frozen;

type Place<F> = Writer<View<F>, Step<F>, Option<Key>, Agrees>;

/// The writer of a view, with its place in the history. It is not `Drop`: end it by `end`.
pub struct Publisher<F: Frozen>
where
    View<F>: Absorb<Step<F>>,
{
    pub(crate) alloc: Global,
    pub(crate) writer: Place<F>,
    pub(crate) history: History<F>,
    pub(crate) upto: u64,
}

impl<F: Frozen> Publisher<F> {
    /// Makes an empty view, and publishes it. Nobody reads it yet, so that it does not wait. Errs only for want of memory.
    pub fn new<R: Wait>(rt: &R, alloc: Global) -> Result<Publisher<F>, Memory>
        ensures { IfOk result (λ p. (k : Key) × IsReady k p × (awaited_by p ≡ opening k.book) × (published_by p ≡ awaited_by p)) }
    {
        let history = History::new();
        let first = opened(alloc, &history)?;
        let second = opened(alloc, &history)?;
        Ok(Publisher {
            alloc,
            writer: open(rt, alloc, first, second)?,
            history,
            upto: 0,
        })
    }

    /// Appends a change, which the next publication shows. Errs only for want of memory, and after 2^64 - 1 changes or
    /// writes. After an `Err` the publisher must not be used but for `end`.
    pub fn append(&mut self, change: Change<F>) -> Result<(), Memory>
        requires ready { (k : Key) × IsReady k self.old }
        requires fits { Fits change }
        ensures ready { OnOk result ((k : Key) → IsReady k self.old → IsReady k self.new) }
        ensures changed { OnOk result (awaited_by self.new ≡ after_change (awaited_by self.old) change) }
        ensures unchanged { OnErr result (awaited_by self.new ≡ awaited_by self.old) }
        ensures published { published_by self.new ≡ published_by self.old }
    {
        let Some(upto) = self.upto.checked_add(change.writes()) else {
            return Err(AllocError);
        };
        if !self.history.add(&change) {
            return Err(AllocError);
        }
        self.upto = upto;
        let step = Step {
            change,
            mark: Mark {
                upto,
                changes: self.history.changes,
                seen: self.history.seen.again(),
            },
        };
        push(&mut self.writer, step)?;
        Ok(())
    }

    /// Publishes all that was appended, at one step. It waits for lenses that are within. Errs only for want of memory.
    pub fn publish<R: Wait>(&mut self, rt: &R) -> Result<(), Memory>
        requires ready { (k : Key) × IsReady k self.old }
        ensures ready { (k : Key) → IsReady k self.old → IsReady k self.new }
        ensures published { OnOk result ((published_by self.new ≡ awaited_by self.old) × (awaited_by self.new ≡ awaited_by self.old)) }
        ensures unchanged { OnErr result ((published_by self.new ≡ published_by self.old) × (awaited_by self.new ≡ awaited_by self.old)) }
    {
        let published = replace_with(
            &mut self.writer,
            rt,
            |writer: Place<F>, rt: &R| -> (Place<F>, Result<(), AllocError>)
                requires { (k : Key) × IsOpenTo k writer }
                ensures open { (k : Key) → IsOpenTo k writer → IsOpenTo k result.0 }
                ensures shown { MatchResult result.1 (λ _. (shown_of result.0 ≡ next_of writer) × (next_of result.0 ≡ next_of writer)) (λ _. (shown_of result.0 ≡ shown_of writer) × (next_of result.0 ≡ next_of writer)) }
            { show(rt, writer) },
        );
        published
    }

    /// A new lens, which begins with what is published. Errs only for want of memory, or where no place among the readers
    /// is left.
    pub fn lens(&mut self) -> Result<Lens<F>, Memory>
        requires ready { (k : Key) × IsReady k self.old }
        ensures ready { (k : Key) → IsReady k self.old → IsReady k self.new }
        ensures lens { IfOk result (λ l. ((k : Key) → IsReady k self.old → IsLensOf k l) × (kept_by l ≡ published_by self.old)) }
        ensures same { (published_by self.new ≡ published_by self.old) × (awaited_by self.new ≡ awaited_by self.old) }
    {
        let mut reader = self.writer.factory().reader()?;
        reader.learn::<Takes>(self.writer.tell::<Notes>());
        let kept = Snapshot::new(self.alloc, self.writer.published().share()?)?;
        Ok(Lens {
            alloc: self.alloc,
            reader,
            kept,
        })
    }

    /// A note of all that is published. Errs only for want of memory.
    pub fn tell(&self) -> Result<Note<F>, Memory>
        ensures { IfOk result (λ n. told_by n ≡ published_by self.now) }
    {
        Ok(Note {
            shown: Snapshot::new(self.alloc, self.writer.published().share()?)?,
        })
    }

    /// Whether what a lens of this view keeps has a beginning of the changes that this publisher knows of. It always has,
    /// and this tells so. Takes no memory.
    pub fn covers(&self, lens: &Lens<F>) -> bool
        requires { (k : Key) × IsReady k self.now × IsLensOf k lens.now }
        ensures begins { IsTrue result → IsPrefix (kept_by lens.now).history (awaited_by self.now).history }
        ensures longer { IsFalse result → (awaited_by self.now).changes < (kept_by lens.now).changes }
    {
        let mut both = self.history.seen.again();
        both.learn(&lens.kept.of.mark.seen);
        lens.kept.changes() <= self.history.changes
    }

    /// Ends the view. It waits for lenses that are within.
    pub fn end<R: Wait>(self, rt: &R) {
        let Publisher {
            alloc: _,
            writer,
            history: _history,
            upto: _,
        } = self;
        drop(writer.take(rt));
    }
}

/// An empty view.
fn opened<F: Frozen>(alloc: Global, history: &History<F>) -> Result<View<F>, Memory>
    requires { history.now.seen.log ≡ [] }
    ensures { IfOk result (λ v. content_of v ≡ opening history.now.seen.book) }
{
    Ok(View {
        alloc,
        list: Arc::new(alloc, ComponentList::new(alloc))?,
        sealed: None,
        chunks: Vec::new(alloc),
        mark: Mark {
            upto: 0,
            changes: 0,
            seen: history.seen.again(),
        },
    })
}

/// Makes a place that shows the first of two views that are alike. Its first publication, of nothing, learns which view it
/// is.
fn open<F: Frozen, R: Wait>(
    rt: &R,
    alloc: Global,
    first: View<F>,
    second: View<F>,
) -> Result<Place<F>, Memory>
    requires { (k : Key) × (content_of first ≡ opening k.book) × (content_of second ≡ opening k.book) }
    ensures { IfOk result (λ w. ((k : Key) × IsOpenTo k w) × (shown_of w ≡ content_of first) × (next_of w ≡ content_of first)) }
{
    let writer: Place<F> = Writer::new(alloc, first, second, 1)?;
    let (writer, published) = writer.publish_as::<Opens, R>(rt);
    match published {
        Ok(()) => Ok(writer),
        Err(fault) => {
            drop(writer.take(rt));
            Err(fault)
        }
    }
}

/// The step waits for the next publication.
fn push<F: Frozen>(writer: &mut Place<F>, step: Step<F>) -> Result<(), Memory>
    ensures place { view writer.new.desk.place ≡ view writer.old.desk.place }
    ensures shown { shown_of writer.new ≡ shown_of writer.old }
    ensures next { MatchResult result (λ _. next_of writer.new ≡ applied (next_of writer.old) step) (λ _. next_of writer.new ≡ next_of writer.old) }
{
    match writer.append(step) {
        Ok(()) => Ok(()),
        Err(_step) => Err(AllocError),
    }
}

/// Publishes what is pending.
fn show<F: Frozen, R: Wait>(rt: &R, writer: Place<F>) -> (Place<F>, Result<(), AllocError>)
    requires { (k : Key) × IsOpenTo k writer }
    ensures open { (k : Key) → IsOpenTo k writer → IsOpenTo k result.0 }
    ensures shown { MatchResult result.1 (λ _. (shown_of result.0 ≡ next_of writer) × (next_of result.0 ≡ next_of writer)) (λ _. (shown_of result.0 ≡ shown_of writer) × (next_of result.0 ≡ next_of writer)) }
{
    writer.publish_as::<Stays, R>(rt)
}
