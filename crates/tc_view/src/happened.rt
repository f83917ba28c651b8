//! A change, as clauses see it.

use tc_list::ComponentList;
use tc_log::Write;
use tc_memory::Sealed;
use tc_store::Frozen;

/// What the history has of a change. No value of it is made: a clause reads an array as a list, of any length.
pub enum Happened<F: Frozen> {
    /// These writes were made.
    Wrote([Write; 0]),
    /// All documents lie in these components, and in this table over them, those of the writes before too.
    Placed {
        list: ComponentList<F>,
        sealed: Option<Sealed>,
    },
}
