//! Bytes on their way into a file whose gate is shut.

ghost use Rattle.std.specs.Prelude.{◌≡◌, ◌<◌, ◌≤◌, ◌+◌, ◌^◌, ◌++◌, ℕ, List, [], length, OnOk, IsErrOf};
ghost use Rattle.tc_store.specs.Counted.{IsCounted};
ghost use Rattle.tc_store.specs.Gate.{IsClosed};
ghost use Rattle.tc_store.specs.Moments.{LeavesOnly};
ghost use Rattle.tc_component.specs.Building.{Spools};

use crate::layout::PIECE_LEN;
use tc_store::{Device, DeviceFault, Gated};

/// A file behind a shut gate that grows at its end, and the bytes that wait to be written there in one piece.
#[derive(Drop)]
pub(crate) struct Spool<D: Device> {
    pub gated: Gated<D>,
    /// The length of the file.
    pub end: u64,
    pub waiting: Vec<u8>,
}

impl<D: Device> Spool<D> {
    /// How many bytes the file has with those that wait.
    pub(crate) fn len(&self) -> u64
        requires { self.now.end < 2 ^ 63 }
        ensures { result ≡ self.now.end + length self.now.waiting.items }
    {
        self.end + self.waiting.len() as u64
    }

    /// Takes these bytes behind all before them. They wait until there are enough of them.
    // A merge pushes an entry in a few dozen instructions; a call of its own for each part of it would cost as much as the
    // part.
    #[inline(always)]
    pub(crate) fn put(&mut self, bytes: &[u8], watch: &mut D::Watch) -> Result<(), DeviceFault>
        requires begun { 0 < self.old.end }
        requires short { self.old.end < 2 ^ 63 }
        requires sized { self.old.end ≡ D.size self.old.gated }

        ensures begun { OnOk result (self.old.end ≤ self.new.end) }
        ensures short { OnOk result (self.new.end < 2 ^ 63) }
        ensures sized { OnOk result (self.new.end ≡ D.size self.new.gated) }
        ensures more { OnOk result ((all : List ℕ) → Spools (D.history self.old.gated) self.old.waiting.items all → Spools (D.history self.new.gated) self.new.waiting.items (all ++ bytes.now)) }

        ensures name { D.name self.new.gated ≡ D.name self.old.gated }
        ensures moments { LeavesOnly IsClosed (D.history self.old.gated) (D.history self.new.gated) }
        ensures counted { IsCounted (IsErrOf result DeviceFault.Fault) (D.Watch.counts watch.old) (D.Watch.counts watch.new) }
    {
        if bytes.len() >= PIECE_LEN && self.waiting.is_empty() {
            return self.put_apart(bytes, watch);
        }
        self.waiting.extend_from_slice(bytes)?;
        if self.waiting.len() < PIECE_LEN {
            return Ok(());
        }
        self.flush(watch)
    }

    /// Writes these bytes, where none wait. They are enough for a piece of their own, and are not copied.
    fn put_apart(&mut self, bytes: &[u8], watch: &mut D::Watch) -> Result<(), DeviceFault>
        requires none { self.old.waiting.items ≡ [] }
        requires begun { 0 < self.old.end }
        requires short { self.old.end < 2 ^ 63 }
        requires sized { self.old.end ≡ D.size self.old.gated }

        ensures begun { OnOk result (self.old.end ≤ self.new.end) }
        ensures short { OnOk result (self.new.end < 2 ^ 63) }
        ensures sized { OnOk result (self.new.end ≡ D.size self.new.gated) }
        ensures more { OnOk result ((all : List ℕ) → Spools (D.history self.old.gated) self.old.waiting.items all → Spools (D.history self.new.gated) self.new.waiting.items (all ++ bytes.now)) }

        ensures name { D.name self.new.gated ≡ D.name self.old.gated }
        ensures moments { LeavesOnly IsClosed (D.history self.old.gated) (D.history self.new.gated) }
        ensures counted { IsCounted (IsErrOf result DeviceFault.Fault) (D.Watch.counts watch.old) (D.Watch.counts watch.new) }
    {
        self.gated.write(self.end, bytes, watch)?;
        self.end += bytes.len() as u64;
        Ok(())
    }

    /// Writes all that waits.
    pub(crate) fn flush(&mut self, watch: &mut D::Watch) -> Result<(), DeviceFault>
        requires begun { 0 < self.old.end }
        requires short { self.old.end < 2 ^ 63 }
        requires sized { self.old.end ≡ D.size self.old.gated }

        ensures begun { OnOk result (self.old.end ≤ self.new.end) }
        ensures short { OnOk result (self.new.end < 2 ^ 63) }
        ensures sized { OnOk result (self.new.end ≡ D.size self.new.gated) }
        ensures none { OnOk result (self.new.waiting.items ≡ []) }
        ensures same { OnOk result ((all : List ℕ) → Spools (D.history self.old.gated) self.old.waiting.items all → Spools (D.history self.new.gated) [] all) }

        ensures name { D.name self.new.gated ≡ D.name self.old.gated }
        ensures moments { LeavesOnly IsClosed (D.history self.old.gated) (D.history self.new.gated) }
        ensures counted { IsCounted (IsErrOf result DeviceFault.Fault) (D.Watch.counts watch.old) (D.Watch.counts watch.new) }
    {
        self.gated.write(self.end, &self.waiting, watch)?;
        self.end += self.waiting.len() as u64;
        self.waiting.clear();
        Ok(())
    }
}
