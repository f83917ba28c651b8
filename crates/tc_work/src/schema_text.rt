//! The text of the schema of an engine.

ghost use Rattle.std.specs.Prelude.{◌≡◌, ◌≤◌, None, IfOk};
ghost use Rattle.serde_json.specs.Written.{compact_text};
ghost use Rattle.tc_log.specs.Layout.{empty_size};
ghost use Rattle.tc_lsm_model.specs.Lists.{live};
ghost use Rattle.tc_model.specs.Keyed.{values_in};
ghost use Rattle.tc_part_model.specs.Meaning.{IsPart};
ghost use Rattle.tc_part_model.specs.Newest.{names_by, schema_by};
ghost use Rattle.tc_part_model.specs.PartState.{told};
ghost use Rattle.tc_part_model.specs.PartView.{PartView, store_of};
ghost use Rattle.tc_part.specs.Openings.{newest_in};
ghost use Rattle.tc_schema_model.specs.SchemaText.{schema_text, tree_text};
ghost use Rattle.tc_schema_model.specs.SchemaTree.{schema_tree};
ghost use Rattle.tc_work.specs.Settling.{TellsFiles};

use crate::engine::Engine;
use std::alloc::Global;
use tc_bytes::{Bytes, Memory};
use tc_running::Pace;
use tc_store::Store;

impl<S: Store, P: Pace> Engine<S, P> {
    /// The text of the schema of the documents in the components, which are all where no table is sealed and the log has no frame.
    /// Errs only for want of memory.
    pub fn schema(&self, alloc: Global) -> Result<Bytes, Memory>
        ensures documents { (p : PartView) → IsPart (told S.history S.Device.history S.Frozen.content self.now.part) p → IfOk result (λ text. text ≡ compact_text (schema_text (values_in (live p.list)))) }
        ensures text { (p : PartView) → IsPart (told S.history S.Device.history S.Frozen.content self.now.part) p → TellsFiles (told S.history S.Device.history S.Frozen.content self.now.part) → self.now.part.sealed ≡ None → S.Device.size self.now.part.log.device ≤ empty_size → IfOk result (λ text. text ≡ compact_text (schema_text (values_in (store_of p)))) }

        // Over every store it is that of the newest component's counts.
        ensures tree { IfOk result (λ text. text ≡ compact_text (tree_text (names_by (newest_in S.Frozen.content self.now.part.list)) (schema_tree (schema_by (newest_in S.Frozen.content self.now.part.list))))) }
    {
        self.part.schema(alloc)
    }
}
