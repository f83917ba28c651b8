//! The texts of the schemas of all partitions.

ghost use Rattle.std.specs.Prelude.{◌≡◌, ◌≤◌, None, All, IfOk, map};
ghost use Rattle.serde_json.specs.Written.{compact_text};
ghost use Rattle.tc_log.specs.Layout.{empty_size};
ghost use Rattle.tc_part_model.specs.PartState.{told};
ghost use Rattle.tc_plain_model.specs.Store.{documents};
ghost use Rattle.tc_run_model.specs.World.{World};
ghost use Rattle.tc_schema_model.specs.SchemaText.{schema_text};
ghost use Rattle.tc_keeper.specs.Places.{AtEach};
ghost use Rattle.tc_keeper.specs.SchemaTexts.{IsSchemaText};
ghost use Rattle.tc_keeper.specs.Standing.{HoldWorld};

use crate::engines::Engines;
use crate::seat::Seat;
use std::alloc::Global;
use tc_bytes::{Bytes, Memory};
use tc_running::Pace;
use tc_store::Store;
use tc_work::Seen;

impl<S: Store, P: Pace> Engines<S, P> {
    /// The text of the schema of each partition, in ascending number, as `Engine::schema` gives it. Errs only for want of memory.
    pub fn schemas(&self, alloc: Global) -> Result<Vec<Bytes>, Memory>
        // At a world, and where no table is sealed and no log has a frame, they are those of what its parts store.
        ensures shown { (w : World) → HoldWorld ⟦<S as Seen>⟧.eyes None self.now w → All (λ e. e.engine.part.sealed ≡ None) self.now → All (λ e. S.Device.size e.engine.part.log.device ≤ empty_size) self.now → IfOk result (λ texts. texts.items ≡ map (λ part. compact_text (schema_text (documents part.now))) w.parts) }

        // Over every store there is one of each engine.
        ensures each { IfOk result (λ texts. AtEach (λ p e text. IsSchemaText (λ part. told S.history S.Device.history S.Frozen.content part) (λ f. S.Frozen.content f) (λ d. S.Device.size d) e.engine text) 0 self.now texts.items) }
    {
        schema_of_each(alloc, &self.seats)
    }
}

/// The text of the schema of each seat's engine.
fn schema_of_each<S: Store, P: Pace>(
    alloc: Global,
    seats: &[Seat<S, P>],
) -> Result<Vec<Bytes>, Memory>
    ensures { IfOk result (λ texts. AtEach (λ p s text. IsSchemaText (λ part. told S.history S.Device.history S.Frozen.content part) (λ f. S.Frozen.content f) (λ d. S.Device.size d) s.engine text) 0 seats.now texts.items) }
{
    let mut texts = Vec::with_capacity(alloc, seats.len())?;
    for at in 0..seats.len() {
        let text = seats[at].engine.schema(alloc)?;
        texts.push(text)?;
    }
    Ok(texts)
}
