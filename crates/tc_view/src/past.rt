//! A list of what happened, as clauses see it.

use std::marker::Model;

/// What happened, the oldest first. No value of it is made. It is no array, as that of the writes in a view: the size of an
/// event depends on the store, and each call over a type with an array of such would owe that the array fits in memory.
/// A `Vec` has one size.
pub struct Past<E> {
    items: Vec<E>,
}

impl<E> Model for Past<E> {
    ghost use Rattle.std.specs.Prelude.{List};

    ghost Value = { List E };

    ghost view = { λ p. p.items.items };
}
