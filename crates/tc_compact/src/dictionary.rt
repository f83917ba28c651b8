//! What every dictionary is.

ghost use Rattle.tc_model.specs.Dictionary.{IsDictionary};

use tc_names::Names;

/// The names are distinct texts, each shorter than 2^32 bytes, and fewer than 2^32. Does nothing.
pub(crate) fn is_dictionary(names: &Names)
    ensures { IsDictionary names.now }
{
    let _count = names.len();
}
