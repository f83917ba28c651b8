//! What a row works on: a shelf, the kit of a partition, and what is held of a file.

use tc_files::{FileDevice, FileFrozen, FileShelf, FileStore};
use tc_store::Kit;
use tc_value::Text;

/// What is held of a file.
#[derive(Drop)]
pub(crate) enum Hand {
    Nothing,
    Device(FileDevice),
    Still(FileFrozen),
}

pub(crate) struct Desk {
    pub(crate) shelf: FileShelf,
    pub(crate) kit: Option<Kit<FileStore>>,
    pub(crate) hand: Hand,
}

impl Drop for Desk {
    /// One call, so that whoever drops a desk sees nothing of what is on it.
    fn drop(self) {
        let Desk { shelf, kit, hand } = self;
        drop(shelf);
        drop(kit);
        drop(hand);
    }
}

impl Desk {
    /// A shelf over a folder, with no kit given.
    pub(crate) fn new(rt: HostRuntime, folder: &str) -> Option<Desk> {
        Some(Desk::of(FileShelf::new(rt, text(rt, folder)?)))
    }

    /// The same with a shelf for those who only read.
    pub(crate) fn to_read(rt: HostRuntime, folder: &str) -> Option<Desk> {
        Some(Desk::of(FileShelf::to_read(rt, text(rt, folder)?)))
    }

    fn of(shelf: FileShelf) -> Desk {
        Desk {
            shelf,
            kit: None,
            hand: Hand::Nothing,
        }
    }
}

fn text(rt: HostRuntime, folder: &str) -> Option<Text> {
    Some(Text::of(String::from_str(rt.alloc(), folder).ok()?))
}
