//! What a view has, as clauses see it.

ghost use Rattle.logbook.specs.Pages.{Book, book_coded};
ghost use base.Fml.{ftrue};

use crate::happened::Happened;
use crate::past::Past;
use std::marker::Model;
use tc_list::ComponentList;
use tc_log::Write;
use tc_memory::Sealed;
use tc_store::Frozen;

/// What a view has. No value of it is made: a clause reads an array as a list of any length, and a `Past` too.
pub struct Content<F: Frozen> {
    /// The listed components, the oldest first.
    pub list: ComponentList<F>,
    /// The table over them, if one is sealed.
    pub sealed: Option<Sealed>,
    /// The writes behind both.
    pub written: [Write; 0],
    /// The number of writes of this run.
    pub upto: u64,
    /// The number of changes of this run.
    pub changes: u64,
    /// The beginning of the history that it has.
    pub history: Past<Happened<F>>,
    /// Which history it is.
    pub ghost book: { Book } by { book_coded },
}

impl<F: Frozen> Model for Content<F> {
    ghost also_owns = { λ _. ftrue };
}
