//! The names of the members of a record, lent.

ghost use Rattle.std.specs.Prelude.{◌≡◌, ◌++◌, [], IsTrue, IfNone, is_some, unwrap_or, option_map, option_to_list};

use crate::numbers::Numbers;
use crate::reader::str_at;
use std::marker::Model;

/// The names of members, read one by one. Contracts see those that are left.
#[derive(Drop)]
pub struct NamesLeft<'a> {
    lengths: Numbers<'a>,
    names: &'a str,
}

impl<'a> Model for NamesLeft<'a> {
    ghost use Rattle.std.specs.Prelude.{List, IsTrue, is_some, unwrap_or, []};
    ghost use Rattle.tc_model.specs.Document.{Name};
    ghost use Rattle.tc_record.specs.NameColumn.{names_cut};
    ghost use Rattle.tc_record.specs.WalkView.{numbers_of};

    ghost Value = { List Name };

    ghost view = { λ n. unwrap_or (names_cut (numbers_of n.lengths) n.names.now) [] };

    ghost invariant = { λ n. IsTrue (is_some (names_cut (numbers_of n.lengths) n.names.now)) };
}

impl<'a> NamesLeft<'a> {
    ghost use Rattle.tc_record.specs.NameColumn.{names_cut};
    ghost use Rattle.tc_record.specs.WalkView.{numbers_of};

    /// The names of these lengths, which stand one after the other.
    pub(crate) fn of(lengths: Numbers<'a>, names: &'a str) -> NamesLeft<'a>
        requires { IsTrue (is_some (names_cut (numbers_of lengths) names.now)) }
        ensures { result ≡ unwrap_or (names_cut (numbers_of lengths.entry) names.now) [] }
    {
        NamesLeft { lengths, names }
    }

    /// The next name, or `None` at the end. Takes no memory.
    #[inline(always)]
    pub fn next(&mut self) -> Option<&'a str>
        ensures taken { self.old ≡ option_to_list (option_map (λ n. n.now) result) ++ self.new }
        ensures end { IfNone result (self.old ≡ []) }
    {
        let mut lengths = self.lengths;
        let len = lengths.next()?;
        let (name, names) = str_at(self.names, len)?;
        self.lengths = lengths;
        self.names = names;
        Some(name)
    }
}
