//! What reads the records of one component for a query.

ghost use Rattle.std.specs.Prelude.{◌≡◌};
ghost use Rattle.tc_query.specs.Readers.{reads_nothing};

use crate::known::Known;
use std::alloc::Global;
use tc_component::RecordCursor;

/// A window of the records of a component, which of them are known to spell documents, and the hops of the path by the numbers
/// that their names have there, where it is asked for a value and each hop goes by a name.
#[derive(Drop)]
pub(crate) struct Reader {
    pub(crate) cursor: RecordCursor,
    pub(crate) known: Known,
    pub(crate) hops: Option<Vec<u32>>,
}

impl Reader {
    /// One that holds no byte, and knows no record. Takes no memory.
    pub(crate) fn new(alloc: Global, hops: Option<Vec<u32>>) -> Reader
        ensures { result ≡ reads_nothing hops }
    {
        Reader {
            cursor: RecordCursor::new(alloc),
            known: Known::new(alloc),
            hops,
        }
    }
}
