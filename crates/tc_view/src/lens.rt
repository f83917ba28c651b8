//! The reader of a view.

ghost use Rattle.std.specs.Prelude.{◌≡◌, Some, IfSome, IfOk};
ghost use Rattle.std.specs.Result.{IsOk};
ghost use mathlib.Core.List.{IsPrefix};
ghost use Rattle.left_right.specs.Sides.{view};
ghost use Rattle.tc_view.specs.Places.{shown_by, told_by, kept_by, IsLensOf};
ghost use Rattle.tc_view.specs.Rules.{IsViewOf};
ghost use Rattle.tc_view.specs.Views.{content_of};

use crate::rule::{Agrees, Key, Stays};
use crate::snapshot::{Note, Snapshot};
use crate::view::View;
use core::mem::replace_with;
use left_right::reader::Reader;
use std::alloc::{AllocError, Global};
use tc_bytes::Memory;
use tc_store::Frozen;

type Seat<F> = Reader<View<F>, Option<Key>, Agrees>;

/// A place among the readers, and the longest view that it was made with, has learnt or has seen.
#[derive(Drop)]
pub struct Lens<F: Frozen> {
    pub(crate) alloc: Global,
    pub(crate) reader: Seat<F>,
    pub(crate) kept: Snapshot<F>,
}

impl<F: Frozen> Lens<F> {
    /// Takes a note in, of this lens's view: from now on each snapshot begins with what it told. It does not enter the
    /// view and takes no memory, so that it never errs.
    pub fn learn(&mut self, note: Note<F>) -> Result<(), Memory>
        requires lens { (k : Key) × IsLensOf k self.old × IsViewOf k (told_by note) }
        ensures lens { (k : Key) → IsLensOf k self.old → IsLensOf k self.new }
        ensures seen { IsPrefix (kept_by self.old).history (kept_by self.new).history }
        ensures told { IsPrefix (told_by note).history (kept_by self.new).history }
        ensures always { IsOk result }
    {
        let Note { shown } = note;
        self.keep(shown);
        Ok(())
    }

    /// Takes shares of what is published, and waits for nobody. It begins with all that this lens gave before and has
    /// learnt. Errs only for want of memory.
    pub fn snapshot(&mut self) -> Result<Snapshot<F>, Memory>
        requires lens { (k : Key) × IsLensOf k self.old }
        ensures lens { (k : Key) → IsLensOf k self.old → IsLensOf k self.new }
        ensures seen { IsPrefix (kept_by self.old).history (kept_by self.new).history }
        ensures given { IfOk result (λ s. shown_by s ≡ kept_by self.new) }
    {
        let looked = replace_with(
            &mut self.reader,
            (),
            |reader: Seat<F>, _nothing: ()| -> (Seat<F>, Option<Result<View<F>, AllocError>>)
                ensures place { view result.0.place ≡ view reader.place }
                ensures shares { (k : Key) → view reader.place ≡ Some k → IfSome result.1 (λ r. IfOk r (λ v. IsViewOf k (content_of v))) }
            { look(reader) },
        );
        let Some(shares) = looked else {
            return self.kept.share();
        };
        let newer = Snapshot::new(self.alloc, shares?)?;
        self.keep(newer);
        self.kept.share()
    }

    /// Keeps the longer of two views of one history, and of two of one length the newer one.
    fn keep(&mut self, newer: Snapshot<F>)
        requires lens { (k : Key) × IsLensOf k self.old × IsViewOf k (shown_by newer) }
        ensures lens { (k : Key) → IsLensOf k self.old → IsLensOf k self.new }
        ensures seen { IsPrefix (kept_by self.old).history (kept_by self.new).history }
        ensures newer { IsPrefix (shown_by newer).history (kept_by self.new).history }
    {
        let mut both = self.kept.of.mark.seen.again();
        both.learn(&newer.of.mark.seen);
        if self.kept.changes() <= newer.changes() {
            self.kept = newer;
        }
    }
}

/// Shares of what is published now, or nothing where no entry is given.
fn look<F: Frozen>(reader: Seat<F>) -> (Seat<F>, Option<Result<View<F>, AllocError>>)
    ensures place { view result.0.place ≡ view reader.place }
    ensures shares { (k : Key) → view reader.place ≡ Some k → IfSome result.1 (λ r. IfOk r (λ v. IsViewOf k (content_of v))) }
{
    match reader.enter_as::<Stays>() {
        Ok(reading) => {
            let shares = reading.get().share();
            (reading.leave(), Some(shares))
        }
        Err(reader) => (reader, None),
    }
}
