//! The rows of a query.

ghost use Rattle.std.specs.Arc.{arc_value};
ghost use Rattle.std.specs.Prelude.{◌≡◌, ◌≤◌, ◌+◌, false, true, None, map, option_map, IfErr, IfOk, OnErr, OnOk, IsErrOf};
ghost use Rattle.tc_command.specs.Commands.{ask_of};
ghost use Rattle.tc_request_model.specs.Rows.{rows_over as rows_of_pairs};
ghost use Rattle.tc_request_model.specs.Rendered.{row_text};
ghost use Rattle.tc_plain_model.specs.Writes.{Pairs};
ghost use Rattle.tc_part_model.specs.PartState.{told, AreTold};
ghost use Rattle.tc_part_model.specs.PartView.{PartView, stored_with};
ghost use Rattle.tc_part_model.specs.Meaning.{IsPart, HasFailedAs};
ghost use Rattle.tc_part.specs.Faults.{IsUndamaged};
ghost use Rattle.tc_part.specs.Harms.{IsHarmIn, IsOfRead};
ghost use Rattle.tc_query.specs.Faults.{IsWatched};
ghost use Rattle.tc_query.specs.Shown.{MayHold, live_keys};
ghost use Rattle.tc_query.specs.Windows.{most_windows};

use crate::fault::{PartFault, of_query};
use crate::part::Part;
use std::alloc::Global;
use std::sync::Arc;
use tc_command::{Ask, Rows};
use tc_memory::Sealed;
use tc_part_model::failed_parts_keep_files;
use tc_query::rows_over;
use tc_store::Store;

impl<S: Store> Part<S> {
    /// The rows that an ask gets of what is stored, with what is staged, in ascending key. At most one read is made for each
    /// key that has a document.
    pub fn rows(&mut self, alloc: Global, ask: &Ask) -> Result<Rows, PartFault>
        requires sound { self.old.failed ≡ false }

        // Where the files are told, the rows are those of the plain store, and none of the files is found damaged.
        ensures rows { (p : PartView) → IsPart (told S.history S.Device.history S.Frozen.content self.old) p → AreTold (told S.history S.Device.history S.Frozen.content self.old).components
            → IfOk result (λ rows. rows ≡ map row_text (rows_of_pairs (ask_of ask.now) (stored_with p))) }
        ensures undamaged { (p : PartView) → IsPart (told S.history S.Device.history S.Frozen.content self.old) p → AreTold (told S.history S.Device.history S.Frozen.content self.old).components
            → IfErr result IsUndamaged }
        ensures same { OnOk result (self.new ≡ record self.old { main = self.new.main }) }

        // A part that fails keeps what it stored.
        ensures failed { OnErr result ((p : PartView) → IsPart (told S.history S.Device.history S.Frozen.content self.old) p
            → HasFailedAs (told S.history S.Device.history S.Frozen.content self.new) p None) }
        ensures left { OnErr result (self.new ≡ record self.old { main = self.new.main; failed = true }) }

        // Whatever they tell, the newest entry of a key decides: by the record that a table keeps, or by one that was read.
        ensures shown { IfOk result (λ rows. (pairs : Pairs) × MayHold (λ file. S.Frozen.content file) self.old.list self.old.sealed self.old.active pairs × (rows ≡ map row_text (rows_of_pairs (ask_of ask.now) pairs))) }

        ensures harmed { IfErr result (λ fault. IsOfRead fault (λ file at bytes. IsHarmIn (λ file. S.Frozen.content file) self.old.list file at bytes)) }

        // So many keys have a document as directories and tables show, which is how many documents are live. Nor are there more
        // reads than windows of the components' records.
        ensures reads { (S.Watch.counts self.new.main).reads ≤ (S.Watch.counts self.old.main).reads + live_keys self.old.list self.old.sealed self.old.active }
        ensures windows { (S.Watch.counts self.new.main).reads ≤ (S.Watch.counts self.old.main).reads + most_windows self.old.list }
        ensures live { (p : PartView) → IsPart (told S.history S.Device.history S.Frozen.content self.old) p → live_keys self.old.list self.old.sealed self.old.active ≡ self.old.live }
        ensures watched { IsWatched (IsErrOf result PartFault.Disk) (S.Watch.counts self.old.main) (S.Watch.counts self.new.main) }
    {
        failed_parts_keep_files();
        match self.rows_stored(alloc, ask) {
            Ok(rows) => Ok(rows),
            Err(fault) => {
                self.failed = true;
                Err(fault)
            }
        }
    }

    /// The rows that an ask gets of what is stored. Where this errs the part has not failed yet.
    fn rows_stored(&mut self, alloc: Global, ask: &Ask) -> Result<Rows, PartFault>
        ensures rows { (p : PartView) → IsPart (told S.history S.Device.history S.Frozen.content self.old) p → AreTold (told S.history S.Device.history S.Frozen.content self.old).components
            → IfOk result (λ rows. rows ≡ map row_text (rows_of_pairs (ask_of ask.now) (stored_with p))) }
        ensures undamaged { (p : PartView) → IsPart (told S.history S.Device.history S.Frozen.content self.old) p → AreTold (told S.history S.Device.history S.Frozen.content self.old).components
            → IfErr result IsUndamaged }
        ensures same { self.new ≡ record self.old { main = self.new.main } }
        ensures shown { IfOk result (λ rows. (pairs : Pairs) × MayHold (λ file. S.Frozen.content file) self.old.list self.old.sealed self.old.active pairs × (rows ≡ map row_text (rows_of_pairs (ask_of ask.now) pairs))) }
        ensures harmed { IfErr result (λ fault. IsOfRead fault (λ file at bytes. IsHarmIn (λ file. S.Frozen.content file) self.old.list file at bytes)) }
        ensures reads { (S.Watch.counts self.new.main).reads ≤ (S.Watch.counts self.old.main).reads + live_keys self.old.list self.old.sealed self.old.active }
        ensures windows { (S.Watch.counts self.new.main).reads ≤ (S.Watch.counts self.old.main).reads + most_windows self.old.list }
        ensures live { (p : PartView) → IsPart (told S.history S.Device.history S.Frozen.content self.old) p → live_keys self.old.list self.old.sealed self.old.active ≡ self.old.live }
        ensures watched { IsWatched (IsErrOf result PartFault.Disk) (S.Watch.counts self.old.main) (S.Watch.counts self.new.main) }
    {
        let sealed = table_of(&self.sealed);
        match rows_over(alloc, &self.list, sealed, &self.active, ask, &mut self.main) {
            Ok(rows) => Ok(rows),
            Err(fault) => Err(of_query(fault)),
        }
    }
}

/// The sealed table, borrowed, if there is one.
fn table_of(sealed: &Option<Arc<Sealed>>) -> Option<&Sealed>
    ensures { option_map (λ t. t.now) result ≡ option_map arc_value sealed.now }
{
    match sealed {
        Some(table) => Some(table),
        None => None,
    }
}
