//! Laws of the names of a part's files, and of those that are out.

ghost use Rattle.std.specs.Prelude.{◌≡◌};
ghost use Rattle.tc_part_model.specs.Meaning.{IsPart};
ghost use Rattle.tc_part.specs.FilesOut.{LogIsOut, OnlyDevicesOut};
ghost use Rattle.tc_part.specs.OwnFiles.{HasOwnFiles};
ghost use Rattle.tc_part_model.specs.PartState.{Told};
ghost use Rattle.tc_part_model.specs.PartView.{PartView};

/// A law, and no work. A part has no files but its own, and so has whatever tells the same store, list and jobs.
pub fn parts_own_files()
    ensures part { (t : Told) (p : PartView) → IsPart t p → HasOwnFiles t }
    ensures same { (t u : Told) → u.disks ≡ t.disks → u.generation ≡ t.generation → u.components ≡ t.components → u.flushing ≡ t.flushing → u.merging ≡ t.merging → HasOwnFiles t → HasOwnFiles u }
{}

/// A law, and no work. Of a part that means something no file is out but those of its devices, and that of its log is.
pub fn parts_hold_devices()
    ensures devices { (t : Told) (p : PartView) → IsPart t p → OnlyDevicesOut t }
    ensures log_out { (t : Told) (p : PartView) → IsPart t p → LogIsOut t }
{}
