//! The reader's watch is lent.

ghost use Rattle.std.specs.Prelude.{◌≡◌, None, Some, true, is_some};

use crate::part::Part;
use tc_store::Store;

impl<S: Store> Part<S> {
    /// Lends the watch of those who read beside the partition, until `take_watch`.
    pub fn lend_watch(&mut self) -> S::Watch
        requires there { is_some self.old.reader ≡ true }
        ensures lent { Some result ≡ self.old.reader }
        ensures same { self.new ≡ record self.old { reader = None } }
    {
        match self.reader.take() {
            Some(watch) => watch,
            None => unreachable!(),
        }
    }

    /// Takes that watch back.
    pub fn take_watch(&mut self, watch: S::Watch)
        requires lent { self.old.reader ≡ None }
        ensures { self.new ≡ record self.old { reader = Some watch } }
    {
        self.reader = Some(watch);
    }
}
