//! Room for texts that grow, and for tables that follow each other.
ghost use Rattle.std.specs.Prelude.{◌≡◌, ◌<◌, ◌≤◌, ◌+◌, OnOk, OnErr, vec_len, vec_capacity};

use std::alloc::{AllocError, Global};

// From how many bytes on a text is long.
const LONG: usize = 1 << 20;

// For how many more bytes a long text gets room at once.
const AHEAD: usize = 1 << 25;

// Makes room behind a text that has too little.
#[cold]
#[inline(never)]
fn take_room(bytes: &mut Vec<u8>, more: usize) -> Result<(), AllocError>
    ensures same { bytes.new.items ≡ bytes.old.items }
    ensures room { OnOk result (vec_len bytes.new + more ≤ vec_capacity bytes.new) }
    ensures full { OnErr result (vec_capacity bytes.old < vec_len bytes.old + more) }
{
    if bytes.len() < LONG {
        return bytes.reserve(more);
    }
    if more <= AHEAD && bytes.reserve_exact(AHEAD).is_ok() {
        return Ok(());
    }
    if bytes.reserve(more).is_ok() {
        return Ok(());
    }
    bytes.reserve_exact(more)
}

/// Makes room behind a text for so many bytes. Refuses only where there is none.
///
/// A text of 2^20 bytes whose room is used up gets room for 2^25 more at once. A block of that size
/// is a mapping of its own to most allocators: it is no larger in memory than what was written into
/// it, grows with no copy of it, and goes back whole as soon as it is dropped. By doubling, the
/// same text leaves holes as large as itself among the tables that stay. Where so much is refused,
/// doubling is tried, and then room for what is asked for alone.
#[inline]
pub fn make_room(bytes: &mut Vec<u8>, more: usize) -> Result<(), AllocError>
    ensures same { bytes.new.items ≡ bytes.old.items }
    ensures room { OnOk result (vec_len bytes.new + more ≤ vec_capacity bytes.new) }
    ensures full { OnErr result (vec_capacity bytes.old < vec_len bytes.old + more) }
{
    if more <= bytes.capacity() - bytes.len() {
        return Ok(());
    }
    take_room(bytes, more)
}

// From how many bytes on a table is large.
const LARGE: usize = 1 << 24;

/// Lets tables that are made from now on take the places of earlier ones, where the first is as
/// large as this. It takes room for so many bytes and lets it go at once: nothing is written there,
/// so it takes no page. No answer hangs on it, and where there is no room nothing happens.
///
/// The C library gives a large block a mapping of its own, with new pages, which go when the block
/// does, and keeps smaller ones in its heap. What is large is a size that rises to that of the
/// largest mapping that was let go, up to 2^25 bytes. New pages cost more than what a pass over a
/// table does with them.
pub fn reuse_room(alloc: Global, bytes: usize) {
    if bytes >= LARGE
        && let Ok(room) = Vec::<u8>::with_capacity(alloc, bytes)
    {
        drop(room);
    }
}
