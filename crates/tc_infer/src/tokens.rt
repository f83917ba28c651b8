//! What the walks over a record take from a token.

ghost use Rattle.std.specs.Prelude.{◌≡◌, option_map};
ghost use Rattle.tc_record.specs.WalkView.{key_of, piece_of};
ghost use Rattle.tc_value.specs.Kinds.{kind_meant};
ghost use Rattle.tc_record.specs.Building.{name_told};
ghost use Rattle.tc_infer.specs.Levels.{piece_kind};

use tc_record::{Label, Piece};
use tc_value::Kind;

/// The kind of the value that a piece is or opens. The close of one has none.
pub fn kind_begun(value: Piece<'_>) -> Option<Kind>
    ensures { option_map kind_meant result ≡ piece_kind (piece_of value.entry) }
{
    match value {
        Piece::Null => Some(Kind::Null),
        Piece::Bool(_) => Some(Kind::Bool),
        Piece::Int(_) => Some(Kind::Int),
        Piece::Text(_) => Some(Kind::Text),
        Piece::Array => Some(Kind::Array),
        Piece::Object => Some(Kind::Object),
        Piece::Close => None,
    }
}

/// The name of a member. What carries none has the empty one.
pub fn name_in<'a>(label: Label<'a>) -> &'a str
    ensures { result.now ≡ name_told (key_of label.entry) }
{
    match label {
        Label::Name(name) => name,
        Label::Bare => "",
        Label::Number(_) => "",
    }
}
