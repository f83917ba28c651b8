//! The names of the files of a partition.

ghost use Rattle.std.specs.Prelude.{◌≡◌};
ghost use Rattle.tc_store.specs.Disk.{same_name};
ghost use Rattle.tc_store.specs.NameOrder.{name_cmp};

use std::cmp::Ordering;

/// The name of a file. The derived order is components first, by first and then last generation, then logs.
#[derive(Clone, Copy, Debug, PartialEq, Eq, PartialOrd, Ord)]
pub enum FileName {
    Component { from: u64, to: u64 },
    Log { generation: u64 },
}

/// How two names are ordered, which is how they compare.
pub fn name_order(a: &FileName, b: &FileName) -> Ordering
    ensures { result ≡ name_cmp a.now b.now }
{
    a.cmp(b)
}

/// Whether two names are one.
pub(crate) fn is_same(a: &FileName, b: &FileName) -> bool
    ensures { result ≡ same_name a.now b.now }
{
    a == b
}
