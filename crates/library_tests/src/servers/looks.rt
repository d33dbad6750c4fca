//! Commands in memory.

use std::alloc::{AllocError, Allocator};
use test_support::MemoryCommands;

// What a look gives, where there is something.
fn given<A: Allocator + Copy>(
    alloc: A,
    piece: &Option<&[u8]>,
) -> Result<Option<Vec<u8, A>>, AllocError> {
    match piece {
        Some(octets) => Ok(Some(octets.to_vec(alloc)?)),
        None => Ok(None),
    }
}

/// Commands that are looked at so often, with the piece of each look, or nothing.
pub(crate) fn commands<A: Allocator + Copy>(
    alloc: A,
    pieces: &[Option<&[u8]>],
) -> Result<MemoryCommands<A>, AllocError> {
    let mut looks = Vec::new(alloc);
    for piece in pieces {
        looks.push(given(alloc, piece)?)?;
    }
    Ok(MemoryCommands::new(looks))
}
