// Placements and bytes that the tests give to pages.
use pages::Placement;
use records::Layout;
use std::alloc::{AllocError, Global};

// Rows of `length` bytes from `start` on, of which `row` is current.
// Constants write theirs out, as a constant calls no function.
pub fn placement(length: u16, start: usize, rows: u32, row: u32) -> Placement {
    Placement {
        layout: Layout { length },
        start,
        rows,
        row,
    }
}

// Byte i is the rest of i by 251.
pub fn counted(heap: Global, count: usize) -> Result<Vec<u8>, AllocError> {
    (0..count).map(|i| (i % 251) as u8).collect(heap)
}
