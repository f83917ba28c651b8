//! What a lens gives, and what a publisher tells.

ghost use Rattle.std.specs.Prelude.{◌≡◌, flat_map, option_map, IfOk};
ghost use Rattle.std.specs.Arc.{arc_value};
ghost use Rattle.tc_view.specs.Changes.{writes_in};
ghost use Rattle.tc_view.specs.Places.{shown_by};
ghost use Rattle.tc_view.specs.Views.{content_of};

use crate::chunk::Chunk;
use crate::view::View;
use std::alloc::Global;
use std::sync::Arc;
use tc_bytes::Memory;
use tc_list::ComponentList;
use tc_memory::Sealed;
use tc_store::Frozen;

/// Shares of what a partition had when it was published. It never changes.
#[derive(Drop)]
pub struct Snapshot<F: Frozen> {
    pub(crate) of: Arc<View<F>>,
}

impl<F: Frozen> Snapshot<F> {
    pub(crate) fn new(alloc: Global, view: View<F>) -> Result<Snapshot<F>, Memory>
        ensures { IfOk result (λ s. shown_by s ≡ content_of view) }
    {
        Ok(Snapshot {
            of: Arc::new(alloc, view)?,
        })
    }

    pub(crate) fn share(&self) -> Result<Snapshot<F>, Memory>
        ensures { IfOk result (λ s. shown_by s ≡ shown_by self.now) }
    {
        Ok(Snapshot {
            of: Arc::try_clone(&self.of)?,
        })
    }

    /// The number of writes of this run that it has. Takes no memory.
    pub fn upto(&self) -> u64
        ensures { result ≡ (shown_by self.now).upto }
    {
        self.of.mark.upto
    }

    /// The number of changes of this run that it has. Takes no memory.
    pub fn changes(&self) -> u64
        ensures { result ≡ (shown_by self.now).changes }
    {
        self.of.mark.changes
    }

    /// The components, the oldest first. Takes no memory.
    pub fn list(&self) -> &ComponentList<F>
        ensures { result.now ≡ (shown_by self.now).list }
    {
        &self.of.list
    }

    /// The sealed table over the components, if there is one. Takes no memory.
    pub fn sealed(&self) -> Option<&Arc<Sealed>>
        ensures { option_map (λ share. arc_value share.now) result ≡ (shown_by self.now).sealed }
    {
        self.of.sealed.as_ref()
    }

    /// The writes over both, frame by frame, the oldest first. Takes no memory.
    pub fn chunks(&self) -> &[Arc<Chunk>]
        ensures { flat_map writes_in result.now ≡ (shown_by self.now).written }
    {
        self.of.chunks.as_slice()
    }
}

/// What a publisher tells a lens: shares of what was published when it told.
#[derive(Drop)]
pub struct Note<F: Frozen> {
    pub(crate) shown: Snapshot<F>,
}
