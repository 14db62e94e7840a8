// Memory for a list, taken before it is filled.
ghost use Rattle.std.specs.Prelude.{◌≡◌, ◌≤◌, [], vec_capacity};

use std::alloc::{AllocError, Global};

// An empty list with room for `N` elements.
#[derive(Drop)]
pub struct Room<T, const N: usize> {
    pub list: Vec<T>,
    ghost empty: { list.items ≡ [] },
    ghost wide: { N ≤ vec_capacity list },
}

impl<T, const N: usize> Room<T, N> {
    pub(crate) fn new(heap: Global) -> Result<Room<T, N>, AllocError> {
        Ok(Room {
            list: Vec::with_capacity(heap, N)?,
        })
    }
}
