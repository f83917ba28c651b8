//! The names that the numbers of a record mean.

ghost use Rattle.std.specs.Prelude.{◌≡◌, option_map};
ghost use Rattle.tc_record.specs.WalkView.{key_of};
ghost use Rattle.tc_record.specs.Building.{name_told};
ghost use Rattle.tc_compact.specs.Meant.{name_at, key_meant};

use tc_names::Names;
use tc_record::Label;

/// The name of a number, or an empty one where it has none.
pub(crate) fn name_meant(names: &Names, number: u32) -> &str
    ensures { result.now ≡ name_at names.now number }
{
    match names.name_of(number) {
        Some(name) => name,
        None => "",
    }
}

/// The name that a label means, or the empty one.
pub(crate) fn label_meant<'a>(label: Label<'a>, names: &'a Names) -> &'a str
    ensures { result.now ≡ name_told (option_map (key_meant names.now) (key_of label.entry)) }
{
    match label {
        Label::Name(name) => name,
        Label::Bare => "",
        Label::Number(number) => name_meant(names, number),
    }
}
