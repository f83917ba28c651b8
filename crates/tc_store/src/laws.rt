//! Laws of what a stop may leave, for those who hold files.

ghost use Rattle.std.specs.Prelude.{◌≡◌, ◌⊎◌, ℕ, List, [], None, Some};
ghost use Rattle.tc_store.specs.DiskFile.{empty_file, settled_file};
ghost use Rattle.tc_store.specs.Images.{Image, MayLeave};

/// What a stop may leave of a settled file, and of one just made.
pub fn stops_follow_files()
    ensures settled { (bytes : List ℕ) (image : Image) → MayLeave (settled_file bytes) image → image ≡ Some bytes }
    ensures fresh { (before image : Image) → MayLeave (empty_file before) image → (image ≡ None) ⊎ ((image ≡ Some []) ⊎ (before ≡ image)) }
{}
