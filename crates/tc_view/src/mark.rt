//! How far a view is in its history.

ghost use Rattle.std.specs.Prelude.{◌≡◌};

use crate::history::Known;
use tc_store::Frozen;

/// The numbers of writes and of changes of this run, and the history up to there.
#[derive(Drop)]
pub(crate) struct Mark<F: Frozen> {
    pub(crate) upto: u64,
    pub(crate) changes: u64,
    pub(crate) seen: Known<F>,
}

impl<F: Frozen> Mark<F> {
    /// The same mark. Takes no memory.
    pub(crate) fn again(&self) -> Mark<F>
        ensures { result ≡ self.now }
    {
        Mark {
            upto: self.upto,
            changes: self.changes,
            seen: self.seen.again(),
        }
    }
}
