//! What changes in a partition for its readers.

ghost use Rattle.std.specs.Prelude.{◌≡◌, length};
ghost use Rattle.tc_view.specs.Changes.{happened, writes_of_one};

use crate::chunk::Chunk;
use std::sync::Arc;
use tc_list::ComponentList;
use tc_memory::Sealed;
use tc_store::Frozen;

/// One change of what is published. What stands between a seal, a flush or a merge and where documents lie after it is no
/// business of readers, so that these are one change.
#[derive(Drop)]
pub enum Change<F: Frozen> {
    /// A frame was written.
    Writes(Arc<Chunk>),
    /// All documents lie in these components, and in this table over them, those of the writes before too. So the chunks of
    /// these leave.
    Placed {
        list: Arc<ComponentList<F>>,
        sealed: Option<Arc<Sealed>>,
    },
}

impl<F: Frozen> Change<F> {
    /// How many writes it makes. Takes no memory.
    pub fn writes(&self) -> u64
        ensures { result ≡ length (writes_of_one (happened self.now)) }
    {
        match self {
            Change::Writes(chunk) => chunk.len() as u64,
            Change::Placed { .. } => 0,
        }
    }
}
