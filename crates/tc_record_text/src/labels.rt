//! The names of members, and which tokens are none.

ghost use Rattle.std.specs.Prelude.{◌≡◌, option_map, bytes_eq};
ghost use Rattle.tc_record.specs.WalkView.{key_of, piece_of};
ghost use Rattle.tc_record.specs.Building.{name_told};
ghost use Rattle.tc_compact.specs.Meant.{key_meant};
ghost use Rattle.tc_record_text.specs.Skipped.{is_close};

use tc_names::Names;
use tc_record::{Label, Piece};

/// The name that a label means. A number without a name in the dictionary means the empty one.
#[inline(always)]
pub fn name_of<'a>(label: Label<'a>, names: &'a Names) -> &'a str
    ensures { result.now ≡ name_told (option_map (key_meant names.now) (key_of label.entry)) }
{
    match label {
        Label::Bare => "",
        Label::Name(own) => own,
        Label::Number(number) => match names.name_of(number) {
            Some(own) => own,
            None => "",
        },
    }
}

/// Whether a label means a name.
#[inline(always)]
pub fn has_name(label: Label<'_>, names: &Names, name: &str) -> bool
    ensures { result ≡ bytes_eq (name_told (option_map (key_meant names.now) (key_of label.entry))) name.now }
{
    name_of(label, names) == name
}

/// Whether a piece closes what is open.
#[inline(always)]
pub fn closes(piece: Piece<'_>) -> bool
    ensures { result ≡ is_close (piece_of piece.entry) }
{
    match piece {
        Piece::Close => true,
        Piece::Null => false,
        Piece::Bool(_) => false,
        Piece::Int(_) => false,
        Piece::Text(_) => false,
        Piece::Array => false,
        Piece::Object => false,
    }
}
