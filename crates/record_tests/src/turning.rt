// Which rows a base can be turned to, and what it shows then.
use crate::both::Both;
use crate::inputs::{counted, placement};
use pages::Placement;
use records::Layout;
use std::test::*;

// Four rows of two bytes, by rows and by columns.
const BY_ROWS: [u8; 8] = [10, 11, 20, 21, 30, 31, 40, 41];

const BY_COLUMNS: [u8; 8] = [10, 20, 30, 40, 11, 21, 31, 41];

const FOUR_ROWS: Placement = Placement {
    layout: Layout { length: 2 },
    start: 0,
    rows: 4,
    row: 3,
};

// Each case starts from where the one before it ended.
#[test]
fn rows_1_to_the_last(rt: HostRuntime) {
    let mut pages = Both::new(&BY_ROWS, &BY_COLUMNS);
    pages.place(&rt, 7, FOUR_ROWS, 0);
    let cases: [(u32, u8, &[u8], &[u8]); 7] = [
        (1, 0, &[20, 21], &[10, 11]),
        (0, 9, &[20, 21], &[10, 11]),
        (3, 0, &[40, 41], &[30, 31]),
        (4, 9, &[40, 41], &[30, 31]),
        (2, 0, &[30, 31], &[20, 21]),
        (2, 0, &[30, 31], &[20, 21]),
        (u32::MAX, 9, &[30, 31], &[20, 21]),
    ];
    for (row, answer, current, previous) in cases {
        pages.turn(&rt, 7, row, answer);
        pages.check_base(&rt, 7, current, previous);
        pages.check_only(&rt, 7);
    }
}

#[test]
fn absent_bases_cannot_be_turned(rt: HostRuntime) {
    let mut pages = Both::new(&BY_ROWS, &BY_COLUMNS);
    pages.place(&rt, 3, FOUR_ROWS, 0);
    for base in [0, 2, 4, 7, 8, 11, 255] {
        for row in [0, 1, 3, u32::MAX] {
            pages.turn(&rt, base, row, 9);
        }
    }
    pages.check_base(&rt, 3, &[40, 41], &[30, 31]);
    pages.check_only(&rt, 3);
}

// A base turns alone, and by the rows of its latest placement.
#[test]
fn one_base_turns(rt: HostRuntime) {
    let mut pages = Both::new(&BY_ROWS, &BY_COLUMNS);
    pages.place(&rt, 0, FOUR_ROWS, 0);
    pages.place(&rt, 1, FOUR_ROWS, 0);
    pages.turn(&rt, 0, 1, 0);
    pages.check_base(&rt, 0, &[20, 21], &[10, 11]);
    pages.check_base(&rt, 1, &[40, 41], &[30, 31]);
    let fewer = placement(1, 0, 3, 1);
    pages.place(&rt, 0, fewer, 0);
    pages.turn(&rt, 0, 3, 9);
    pages.turn(&rt, 1, 3, 0);
}

// One byte to a row, so that row k is byte k.
#[test]
fn the_most_rows(rt: HostRuntime) -> Result<(), Fail> {
    let bytes = counted(rt.alloc(), 65_535)?;
    let most = placement(1, 0, 65_535, 1);
    let mut pages = Both::new(&bytes, &bytes);
    pages.place(&rt, 0, most, 0);
    pages.turn(&rt, 0, 65_534, 0);
    pages.check_base(&rt, 0, &[23], &[22]);
    pages.turn(&rt, 0, 65_535, 9);
    pages.turn(&rt, 0, 65_536, 9);
    pages.check_base(&rt, 0, &[23], &[22]);
    pages.turn(&rt, 0, 251, 0);
    pages.check_base(&rt, 0, &[0], &[250]);
    Ok(())
}
