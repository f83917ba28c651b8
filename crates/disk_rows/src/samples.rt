//! The worked log.

/// The log of partition 0 of 1 with the generation 1, and one frame: the upsert of `{"a":true}` at key 1.
pub(crate) const LOG: [u8; 69] = [
    1, 0x54, 0x43, 0x4c, 0x31, 0, 0, 0, 0, 0, 0, 0, 1, 0, 0, 0, 0, 0, 0, 0, 1, 1, 0, 0, 0, 1, 0, 0,
    0, 0x26, 0, 0, 0, 0, 0, 0, 0, 1, 1, 0, 0, 0, 0x1d, 0, 0, 0, 0, 3, 0, 0, 0, 1, 0, 0, 0, 0, 0, 0,
    0, 0, 1, 1, 6, 2, 7, 1, 1, 0x61, 0,
];
