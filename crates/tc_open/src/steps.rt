//! What one step of an opening hands to the next.

use tc_list::ComponentList;
use tc_log::Writes;
use tc_recover::{FilesRead, Taken};
use tc_store::{Kit, Store};

/// A kit, and what was read of its files.
#[derive(Drop)]
pub(crate) struct ReadKit<S: Store> {
    pub(crate) kit: Kit<S>,
    pub(crate) read: FilesRead<S::Frozen>,
}

/// A kit, and the logs that stay in it.
#[derive(Drop)]
pub(crate) struct Removed<S: Store> {
    pub(crate) kit: Kit<S>,
    pub(crate) logs: Vec<Taken<S::Frozen>>,
}

/// A kit in which no other files are left: those of the components, and the logs above them with their writes. The last
/// generation is that of the newest component, or 0.
#[derive(Drop)]
pub(crate) struct Tidied<S: Store> {
    pub(crate) kit: Kit<S>,
    pub(crate) list: ComponentList<S::Frozen>,
    pub(crate) logs: Vec<Taken<S::Frozen>>,
    pub(crate) writes: Vec<Writes>,
    pub(crate) last: u64,
}

/// A kit in which the files of these components are left, and no others.
#[derive(Drop)]
pub(crate) struct Rested<S: Store> {
    pub(crate) kit: Kit<S>,
    pub(crate) list: ComponentList<S::Frozen>,
}
