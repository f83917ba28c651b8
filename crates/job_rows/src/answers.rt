//! Bytes, as an answer.

use std::alloc::Global;

/// Bytes, as an answer: their digits where they are few, else how many they are and their hash by FNV-1a in 64 bits.
pub(crate) fn shown(alloc: Global, bytes: &[u8]) -> Option<String> {
    if bytes.len() > 400 {
        return format!(in alloc; "{} bytes {}", bytes.len(), hash(bytes)).ok();
    }
    hex::encode(alloc, bytes).ok()
}

fn hash(bytes: &[u8]) -> u64 {
    let mut hash: u64 = 0xcbf2_9ce4_8422_2325;
    for byte in bytes {
        hash = (hash ^ u64::from(*byte)).wrapping_mul(0x100_0000_01b3);
    }
    hash
}
