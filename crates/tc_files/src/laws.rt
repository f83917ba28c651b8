//! The law of how files are called.

ghost use Rattle.std.specs.Prelude.{◌≡◌};
ghost use Rattle.tc_files.specs.Names.{name_text, IsInUse};
ghost use Rattle.tc_store.specs.declared.file_name.FileName.{FileName};

/// Two files of a store are called differently.
pub fn names_are_apart()
    ensures { (one other : FileName) → IsInUse one → IsInUse other → name_text one ≡ name_text other → one ≡ other }
{}
