//! What an audit finds.

use tc_bytes::Bytes;
use tc_difference::Found;

/// Whether components hold what their schemas say.
#[derive(Drop, Debug)]
pub enum Verdict {
    /// They do, and so many documents are live.
    Right { documents: u64 },
    Wrong(Wrong),
}

/// The first thing that is wrong with components, the oldest of which is at position 0.
#[derive(Drop, Debug)]
pub enum Wrong {
    /// The record at a place in a component's file is not that of a document as it is stored. These are its bytes.
    Record {
        component: usize,
        place: u64,
        bytes: Bytes,
    },
    /// With a component 4,294,967,296 documents or more are live.
    Documents {
        component: usize,
    },
    /// The schema of a component shows other numbers than the documents that are live with it have.
    Count {
        component: usize,
        first: Found,
    },
}
