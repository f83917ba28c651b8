//! What is open in a walk that judges names: each array and object, with the name of the member before.

ghost use Rattle.std.specs.Prelude.{◌≡◌, ◌≤◌, ◌∷◌, [], length, nat_lt, if◌then◌else◌};
ghost use Rattle.tc_model.specs.Limits.{max_depth};
ghost use Rattle.tc_record.specs.Walk.{opened, in_object};
ghost use Rattle.tc_record.specs.WalkView.{piece_of, level_of};
ghost use Rattle.tc_record.specs.Stack.{stack_of};

use crate::kinds::MAX_LEVELS;
use crate::reader::Level;
use crate::token::Piece;

/// The arrays and objects that are open, innermost last.
#[derive(Clone, Copy)]
pub(crate) struct Nesting<'a> {
    pub(crate) levels: [Level<'a>; MAX_LEVELS],
    pub(crate) depth: usize,
    ghost room: { length levels ≡ max_depth },
    ghost shallow: { depth ≤ max_depth },
}

impl<'a> Nesting<'a> {
    /// An object that is open, and nothing else.
    #[inline(always)]
    pub(crate) fn in_object() -> Nesting<'a>
        ensures { stack_of result.levels result.depth ≡ in_object None ∷ [] }
    {
        let mut levels = [Level::Array; MAX_LEVELS];
        levels[0] = Level::Object;
        Nesting { levels, depth: 1 }
    }

    /// Opens what a value opens, or answers `false` where that would nest too deep.
    #[inline(always)]
    pub(crate) fn open(&mut self, value: Piece<'a>) -> bool
        ensures { (if result then Some (stack_of self.new.levels self.new.depth) else None) ≡ opened (piece_of value.entry) (stack_of self.old.levels self.old.depth) }
    {
        match value {
            Piece::Null => true,
            Piece::Bool(_) => true,
            Piece::Int(_) => true,
            Piece::Text(_) => true,
            Piece::Array => self.push(Level::Array),
            Piece::Object => self.push(Level::Object),
            Piece::Close => false,
        }
    }

    #[inline(always)]
    fn push(&mut self, level: Level<'a>) -> bool
        ensures { (if result then Some (stack_of self.new.levels self.new.depth) else None) ≡ (if nat_lt (length (stack_of self.old.levels self.old.depth)) max_depth then Some (level_of level.entry ∷ stack_of self.old.levels self.old.depth) else None) }
    {
        if self.depth >= MAX_LEVELS {
            return false;
        }
        self.levels[self.depth] = level;
        self.depth += 1;
        true
    }
}
