//! What becomes of the large blocks of memory that a command gives back.

use std::alloc::Global;

/// The bytes of the largest block that the C library of most Linux systems takes as one to keep: with what it adds, a page less
/// than 32 MiB.
const LARGEST_KEPT: usize = (32 << 20) - (8 << 10);

/// Has the C library keep the large blocks of memory that come back: it takes such a block and gives it back untouched.
///
/// The library of most Linux systems has the system map each block of more than 128 KiB by itself and unmaps it where it comes
/// back, so that each list of a check and of a run costs the system new pages, of which each takes some microseconds. Once a
/// mapped block of less than 32 MiB has come back, the library maps by itself only larger ones, and hands the pages of the others
/// on. It has calls for this setting, but no function that can be proved calls them. Other libraries take these two calls as
/// they take others. Where such a block can't be had, nothing changes, and nothing is refused.
pub(crate) fn keep_large_blocks(alloc: Global) {
    if let Ok(block) = Vec::<u8>::with_capacity(alloc, LARGEST_KEPT) {
        drop(block);
    }
}
