//! Values that are passed over.

ghost use Rattle.std.specs.Prelude.{◌≡◌, ◌≤◌, List, length};
ghost use Rattle.tc_model.specs.Document.{Name};
ghost use Rattle.tc_record.specs.WalkView.{piece_of};
ghost use Rattle.tc_record.specs.Building.{outer, value_read};
ghost use Rattle.tc_compact.specs.Meant.{levels_meant};

use tc_record::{Cursor, Piece};

/// Moves a cursor past the value that a piece is or opens.
pub fn skip(cursor: &mut Cursor<'_>, piece: Piece<'_>)
    ensures behind { (names : List Name) → levels_meant names cursor.new ≡ (value_read (piece_of piece.entry) (levels_meant names cursor.old)).1 }
    ensures shorter { length cursor.new ≤ length cursor.old }
{
    match piece {
        Piece::Array => skip_to_close(cursor),
        Piece::Object => skip_to_close(cursor),
        Piece::Null => {}
        Piece::Bool(_) => {}
        Piece::Int(_) => {}
        Piece::Text(_) => {}
        Piece::Close => {}
    }
}

/// Moves a cursor past the close of the innermost array or object.
pub fn skip_to_close(cursor: &mut Cursor<'_>)
    ensures behind { (names : List Name) → levels_meant names cursor.new ≡ outer (levels_meant names cursor.old) }
    ensures shorter { length cursor.new ≤ length cursor.old }
{
    cursor.pass_to_close();
}
