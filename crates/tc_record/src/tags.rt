//! The tags of a record's tokens: that of a value is the number of its kind.

pub(crate) const NULL_TAG: u8 = 1;

pub(crate) const BOOLEAN_TAG: u8 = 2;

pub(crate) const INTEGER_TAG: u8 = 3;

pub(crate) const TEXT_TAG: u8 = 4;

pub(crate) const ARRAY_TAG: u8 = 5;

pub(crate) const OBJECT_TAG: u8 = 6;

/// The end of what an array or an object holds.
pub(crate) const CLOSE_TAG: u8 = 7;
