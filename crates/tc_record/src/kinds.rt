//! What is open in a walk that keeps no names: of each array and object, which of both it is.

ghost use Rattle.std.specs.Prelude.{◌≡◌, ◌<◌, ◌≤◌, ◌-◌, ◌/◌, ◌^◌, ◌∷◌, [], length, nat_lt, if◌then◌else◌};
ghost use Rattle.tc_model.specs.Limits.{max_depth};
ghost use Rattle.tc_record.specs.Walk.{opened, in_object};
ghost use Rattle.tc_record.specs.WalkView.{piece_of};
ghost use Rattle.tc_record.specs.Stack.{kind_of, kinds_of};

use crate::token::Piece;
use tc_value::MAX_DEPTH;

/// How many arrays and objects may be open at once.
pub(crate) const MAX_LEVELS: usize = MAX_DEPTH as usize;

/// How many arrays and objects are open, and which of them are arrays: a bit each, that of the innermost one lowest.
#[derive(Clone, Copy)]
pub(crate) struct Kinds {
    pub(crate) arrays: u32,
    pub(crate) depth: u8,
    ghost shallow: { depth ≤ max_depth },
    ghost few: { arrays < 2 ^ depth },
}

impl Kinds {
    /// An object that is open, and nothing else.
    #[inline(always)]
    pub(crate) fn in_object() -> Kinds
        ensures { kinds_of result.arrays result.depth ≡ in_object None ∷ [] }
    {
        Kinds {
            arrays: 0,
            depth: 1,
        }
    }

    /// Closes the innermost one.
    #[inline(always)]
    pub(crate) fn close(&mut self)
        requires { 0 < self.old.depth }
        ensures { kinds_of self.new.arrays self.new.depth ≡ kinds_of (self.old.arrays / 2) (self.old.depth - 1) }
    {
        self.arrays /= 2;
        self.depth -= 1;
    }

    /// Opens what a value opens, or answers `false` where that would nest too deep.
    #[inline(always)]
    pub(crate) fn open(&mut self, value: Piece<'_>) -> bool
        ensures { (if result then Some (kinds_of self.new.arrays self.new.depth) else None) ≡ opened (piece_of value.entry) (kinds_of self.old.arrays self.old.depth) }
    {
        match value {
            Piece::Null => true,
            Piece::Bool(_) => true,
            Piece::Int(_) => true,
            Piece::Text(_) => true,
            Piece::Array => self.push(true),
            Piece::Object => self.push(false),
            Piece::Close => false,
        }
    }

    #[inline(always)]
    fn push(&mut self, array: bool) -> bool
        ensures { (if result then Some (kinds_of self.new.arrays self.new.depth) else None) ≡ (if nat_lt (length (kinds_of self.old.arrays self.old.depth)) max_depth then Some (kind_of array ∷ kinds_of self.old.arrays self.old.depth) else None) }
    {
        if usize::from(self.depth) >= MAX_LEVELS {
            return false;
        }
        self.arrays = self.arrays * 2 + u32::from(array);
        self.depth += 1;
        true
    }
}
