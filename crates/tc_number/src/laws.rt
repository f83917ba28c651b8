//! The law of numbers as text, for those who print them.

ghost use Rattle.tc_number.specs.Printed.{ArePrinted};

/// Each number below 2^64 has one text, which is what `format!` prints of it.
pub fn numbers_are_printed()
    ensures { ArePrinted }
{}
