//! The history of a view: its changes, in order. It exists in the proofs alone; what runs is a word, the number of changes.

ghost use Rattle.std.specs.Prelude.{◌≡◌, ◌++◌, ◌∷◌, [], ◌+◌, length, MatchBool};
ghost use Rattle.tc_view.specs.History.{head_of};
ghost use Rattle.tc_view.specs.Changes.{happened};

use crate::change::Change;
use crate::happened::Happened;
use logbook::{Gain, Offer, Plain, Play, Rule, Seen, Start, Word};
use tc_store::Frozen;

/// The rule of the history.
pub(crate) struct Law;

impl<F: Frozen> Rule<Happened<F>, u64> for Law {
    ghost use Rattle.std.specs.Prelude.{[]};
    ghost use base.Fml.{ftrue};
    ghost use Rattle.tc_view.specs.History.{IsKept};

    ghost holds = { λ cells log. IsKept cells log };

    ghost first = { [] };

    ghost hinted = { λ n log. Unit {0} };

    ghost shows = { λ log. [] };

    ghost keeps = { λ names log. ftrue };

    ghost moves = { λ ask before after answer. Unit {0} };
}

struct Nothing;

impl<F: Frozen> Gain<Happened<F>, u64> for Nothing {
    ghost use base.Fml.{ftrue};

    ghost after = { λ names about answer. ftrue };
}

struct Add;

impl<F: Frozen> Play<Happened<F>, u64> for Add {
    ghost use Rattle.tc_view.specs.History.{Adds};

    ghost then = { Adds };
}

impl<F: Frozen> Plain<Change<F>, Happened<F>, u64> for Add {
    ghost use Rattle.std.specs.Prelude.{None};
    ghost use Rattle.tc_view.specs.Changes.{happened};

    ghost ask = { happened };

    ghost state = { λ change. None };
}

/// A beginning of the history. It has no bytes.
pub(crate) type Known<F> = Seen<Happened<F>, u64, Law>;

/// The publisher's place in the history, which alone adds to it.
#[derive(Drop)]
pub(crate) struct History<F: Frozen> {
    head: Word<Happened<F>, u64, Law>,
    pub(crate) seen: Known<F>,
    pub(crate) changes: u64,
    ghost head_is: { head ≡ head_of seen.book },
    ghost counted: { changes ≡ length seen.log },
}

impl<F: Frozen> History<F> {
    /// A history with no change.
    pub(crate) fn new() -> History<F>
        ensures { result.seen.log ≡ [] }
    {
        let (seen, mut first, _second) = Seen::open(Start::alone(), 0, 0);
        History {
            head: Word::tracked(0, &mut first),
            seen,
            changes: 0,
        }
    }

    /// Adds a change. It answers false where the history has as many changes as a `u64` counts.
    pub(crate) fn add(&mut self, change: &Change<F>) -> bool
        ensures added { MatchBool result (self.new.seen.log ≡ self.old.seen.log ++ happened change.now ∷ []) (Unit {0}) }
        ensures book { self.new.seen.book ≡ self.old.seen.book }
    {
        if self.changes == u64::MAX {
            return false;
        }
        let changes = self.changes;
        let mut offer: Offer<Happened<F>, u64, Law, Nothing> = self
            .seen
            .plain::<Nothing, Change<F>, Add>(change);
        let mut pen = self.seen.no_pen();
        let found = self
            .head
            .compare_exchange::<Add, Nothing>(
                changes,
                changes + 1,
                &mut self.seen,
                &mut offer,
                &mut pen,
            );
        self.changes = if found == changes { changes + 1 } else { found };
        found == changes
    }
}
