//! That a key is taken out is staged.

ghost use Rattle.std.specs.Prelude.{◌≡◌, ◌<◌, ◌-◌, ◌^◌, ◌++◌, ◌∷◌, [], None, true, option_map, is_some, IfErr, IfOk, OnErr, OnOk, IsErrOf};
ghost use Rattle.tc_model.specs.Keyed.{value_of};
ghost use Rattle.tc_value.specs.ShapeMeaning.{shape_tree};
ghost use Rattle.tc_log.specs.declared.write.Write.TheVariants.{Delete as a_delete};
ghost use Rattle.tc_memory.specs.Table.{deleted};
ghost use Rattle.tc_list.specs.Lookups.{HaveNone};
ghost use Rattle.tc_part_model.specs.Changes.{with_staged};
ghost use Rattle.tc_part_model.specs.PartState.{told, AreForFrame};
ghost use Rattle.tc_part_model.specs.PartView.{PartView, stored_with};
ghost use Rattle.tc_part_model.specs.Meaning.{IsPart};
ghost use Rattle.tc_part.specs.declared.staging.Staged.TheVariants.{Done};
ghost use Rattle.tc_part.specs.Below.{IsBelow};
ghost use Rattle.tc_part.specs.Handed.{HandsIn};
ghost use Rattle.tc_part.specs.Harms.{IsHarmIn, IsOfRead};
ghost use Rattle.tc_part.specs.Reads.{IsCountedLookup};
ghost use Rattle.tc_part.specs.Stages.{HasDeleted};

use crate::below::Below;
use crate::fault::PartFault;
use crate::part::Part;
use crate::staging::Staged;
use std::alloc::Global;
use tc_bytes::Memory;
use tc_log::Write;
use tc_part_model::staged_is_kept;
use tc_store::Store;
use tc_value::Shape;

impl<S: Store> Part<S> {
    /// Stages that a key is taken out which has a document, and this below the active table.
    pub(crate) fn delete(
        &mut self,
        alloc: Global,
        key: u64,
        below: Below,
    ) -> Result<Staged, PartFault>
        requires key { key < 2 ^ 63 }
        requires frame { AreForFrame (self.old.staged ++ a_delete key ∷ []) }
        requires below { IsBelow self.old.sealed self.old.list key below }
        ensures done { IfOk result (λ answer. answer ≡ Done true) }
        ensures staged { (p : PartView) → IsPart (told S.history S.Device.history S.Frozen.content self.old) p → is_some (value_of key (stored_with p)) ≡ true
            → OnOk result (IsPart (told S.history S.Device.history S.Frozen.content self.new) (with_staged (key, None) p)) }
        ensures same { OnOk result (HasDeleted key self.old self.new) }
        ensures handed { OnOk result (HandsIn (λ file. S.Frozen.content file) key (deleted key) self.old self.new.active) }
        ensures left { self.new ≡ record self.old { main = self.new.main; active = self.new.active; staged = self.new.staged; live = self.new.live } }
        ensures harmed { IfErr result (λ fault. IsOfRead fault (λ file at bytes. IsHarmIn (λ file. S.Frozen.content file) self.old.list file at bytes)) }
        ensures counted { IsCountedLookup (IsErrOf result PartFault.Disk) (HaveNone self.old.list key) (S.Watch.counts self.old.main) (S.Watch.counts self.new.main) }
    {
        staged_is_kept();
        let shape = self.shape_kept(alloc, key, below)?;
        self.take_out(key, shape)?;
        let _taken = self.taken.len();
        self.live = self.live.saturating_sub(1);
        Ok(Staged::Done { was_live: true })
    }

    /// Takes a key out of the active table, and puts the write behind those that are staged.
    fn take_out(&mut self, key: u64, shape: Option<Shape>) -> Result<(), Memory>
        requires key { key < 2 ^ 63 }
        requires frame { AreForFrame (self.old.staged ++ a_delete key ∷ []) }
        ensures ok { OnOk result (self.new ≡ record self.old { active = deleted key (option_map shape_tree shape) self.old.active; staged = self.old.staged ++ a_delete key ∷ [] }) }
        ensures err { OnErr result (self.new ≡ record self.old { active = self.new.active; staged = self.new.staged }) }
    {
        self.staged.push(Write::Delete { key })?;
        self.active.delete(key, shape)
    }
}
