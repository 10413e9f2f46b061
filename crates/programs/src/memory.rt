//! Memory that is freed and needed again.

use std::alloc::{AllocError, Global};

/// How many words of 8 bytes `keep_freed_memory` asks for (own).
const WORDS: usize = 262_144;

/// Asks for a block of memory and gives it back. From then on the C library keeps freed memory of up to twice that size, where else it
/// would give the long waves of each former run back to the system and ask for as much at the next commit. Nothing depends on it.
pub fn keep_freed_memory(alloc: Global) {
    let _block: Result<Vec<u64>, AllocError> = Vec::with_capacity(alloc, WORDS);
}
