//! The text of the schema of a partition.

ghost use Rattle.std.specs.Prelude.{◌≡◌, IfOk, List};
ghost use Rattle.serde_json.specs.Written.{compact_text};
ghost use Rattle.tc_model.specs.Document.{Document};
ghost use Rattle.tc_model.specs.Keyed.{values_in};
ghost use Rattle.tc_schema_model.specs.SchemaText.{schema_text, tree_text};
ghost use Rattle.tc_schema_model.specs.SchemaTree.{schema_tree};
ghost use Rattle.tc_schema_model.specs.Stands.{StandsFor};
ghost use Rattle.tc_lsm_model.specs.Lists.{live};
ghost use Rattle.tc_part_model.specs.Meaning.{IsPart};
ghost use Rattle.tc_part_model.specs.Newest.{names_by, schema_by};
ghost use Rattle.tc_part_model.specs.PartState.{told};
ghost use Rattle.tc_part_model.specs.PartView.{PartView};
ghost use Rattle.tc_part.specs.Openings.{newest_in};

use crate::part::Part;
use std::alloc::Global;
use tc_bytes::{Bytes, Memory};
use tc_names::Names;
use tc_schema::Schema;
use tc_store::Store;

impl<S: Store> Part<S> {
    /// The text of the schema of the newest component, which is that of all documents that live in the components. Errs only
    /// for want of memory.
    pub fn schema(&self, alloc: Global) -> Result<Bytes, Memory>
        ensures documents { (p : PartView) → IsPart (told S.history S.Device.history S.Frozen.content self.now) p → IfOk result (λ text. text ≡ compact_text (schema_text (values_in (live p.list)))) }

        // Over every store it is that of the newest component's counts.
        ensures tree { IfOk result (λ text. text ≡ compact_text (tree_text (names_by (newest_in S.Frozen.content self.now.list)) (schema_tree (schema_by (newest_in S.Frozen.content self.now.list))))) }
    {
        let count = self.list.len();
        if count == 0 {
            let names = Names::new(alloc);
            let nothing = Schema::empty(alloc);
            return text_of(alloc, &nothing, &names);
        }
        let newest = self.list.component_at(count - 1);
        let schema = newest.schema(alloc)?;
        text_of(alloc, &schema, newest.names())
    }
}

// The text of a schema. Errs only for want of memory.
fn text_of(alloc: Global, schema: &Schema, names: &Names) -> Result<Bytes, Memory>
    ensures documents { IfOk result (λ text. (docs : List Document) → StandsFor names.now schema.now docs → text ≡ compact_text (schema_text docs)) }
    ensures tree { IfOk result (λ text. text ≡ compact_text (tree_text names.now (schema_tree schema.now))) }
{
    let mut text = Vec::new(alloc);
    schema.put_text(alloc, names, &mut text)?;
    Ok(Bytes::of(text))
}
