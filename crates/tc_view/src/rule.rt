//! The rule of the published view. What a place knows of it is which history it is.

ghost use Rattle.logbook.specs.Pages.{Book, book_coded};
ghost use base.Fml.{ftrue};

use crate::view::View;
use atomic_table::{Join, Split};
use crossbeam_utils::rule::{Outcome, Protocol};
use std::marker::Model;
use tc_store::Frozen;

/// Which view it is. No value of it is made.
pub struct Key {
    /// Which history it is.
    pub ghost book: { Book } by { book_coded },
}

impl Model for Key {
    ghost also_owns = { λ _. ftrue };
}

/// What is published is of one view, and all places that were told of a view were told of that one.
pub struct Agrees;

impl<F: Frozen> Protocol<View<F>, Option<Key>> for Agrees {
    ghost use Rattle.std.specs.Prelude.{None};
    ghost use Rattle.tc_view.specs.Views.{content_of};
    ghost use Rattle.tc_view.specs.Rules.{Agreed};

    ghost holds = { λ v. Agreed (content_of v) };

    ghost first = { None };
}

/// The first publication, which learns which view it is.
pub(crate) struct Opens;

impl<F: Frozen> Outcome<View<F>, Option<Key>> for Opens {
    ghost use Rattle.tc_view.specs.Views.{content_of};
    ghost use Rattle.tc_view.specs.Rules.{Opened};

    ghost then = { λ v x y w. Opened (content_of y) w };
}

/// A publication or an entry: what is then published is of the view.
pub(crate) struct Stays;

impl<F: Frozen> Outcome<View<F>, Option<Key>> for Stays {
    ghost use Rattle.tc_view.specs.Views.{content_of};
    ghost use Rattle.tc_view.specs.Rules.{Stayed};

    ghost then = { λ v x y w. Stayed v (content_of y) w };
}

/// The publisher says which view it is.
pub(crate) struct Notes;

impl Split<Option<Key>> for Notes {
    ghost left = { λ v. v };

    ghost right = { λ v. v };
}

/// The lens learns which view it is.
pub(crate) struct Takes;

impl Join<Option<Key>> for Takes {
    ghost use Rattle.std.specs.Prelude.{None};

    ghost both = { λ v w. w };

    ghost spent = { None };
}
