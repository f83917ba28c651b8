//! Kinds of values, and steps of a path.

ghost use Rattle.std.specs.Prelude.{◌≡◌};
ghost use Rattle.tc_model.specs.Kinds.{tag};
ghost use Rattle.tc_value.specs.Kinds.{kind_meant};

use crate::text::Text;

/// The kind of a value.
#[derive(Clone, Copy, Debug, PartialEq, Eq)]
pub enum Kind {
    Null,
    Bool,
    Int,
    Text,
    Array,
    Object,
}

impl Kind {
    /// The number of a kind in the formats, from 1 to 6.
    pub fn tag(self) -> u8
        ensures { result ≡ tag (kind_meant self) }
    {
        match self {
            Kind::Null => 1,
            Kind::Bool => 2,
            Kind::Int => 3,
            Kind::Text => 4,
            Kind::Array => 5,
            Kind::Object => 6,
        }
    }
}

/// A step from a value to what it holds: the member of a name, or each item.
#[derive(Drop, Debug)]
pub enum Step {
    Field(Text),
    Item,
}
