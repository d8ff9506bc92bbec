// Which placements a page takes, and that a refused one leaves the page as it was.
use crate::both::Both;
use crate::inputs::{counted, placement};
use pages::Placement;
use records::Layout;
use std::process::Abort;
use std::test::*;

// New pages give this answer, and have the layout afterwards if and only if it is 0. It is a number, as in `Both::place`.
fn check_placing(rt: &impl Abort, bytes: &[u8], base: u8, placement: Placement, answer: u8) {
    let length = if answer == 0 {
        placement.layout.length
    } else {
        0
    };
    let mut pages = Both::new(bytes, bytes);
    pages.place(rt, base, placement, answer);
    assert_eq!(rt;
        pages.lengths(base),
        (length, length),
        "base {base}, {placement:?}, {} bytes",
        bytes.len()
    );
}

#[test]
fn bases_0_to_7(rt: HostRuntime) {
    for (base, answer) in [(0, 0), (7, 0), (8, 9), (255, 9)] {
        check_placing(&rt, &[0; 8], base, placement(4, 0, 2, 1), answer);
    }
}

// The bytes suffice in every case, so the length alone decides.
#[test]
fn lengths_1_to_512(rt: HostRuntime) -> Result<(), Fail> {
    let bytes = counted(rt.alloc(), 131_072)?;
    for (length, answer) in [(0, 9), (1, 0), (512, 0), (513, 9), (u16::MAX, 9)] {
        check_placing(&rt, &bytes, 0, placement(length, 0, 2, 1), answer);
    }
    Ok(())
}

#[test]
fn rows_2_to_65535_and_row_1_to_the_last(rt: HostRuntime) -> Result<(), Fail> {
    let bytes = counted(rt.alloc(), 65_536)?;
    for (rows, row, answer) in [
        (0, 0, 9),
        (1, 0, 9),
        (1, 1, 9),
        (2, 0, 9),
        (2, 1, 0),
        (2, 2, 9),
        (2, u32::MAX, 9),
        (65_535, 0, 9),
        (65_535, 1, 0),
        (65_535, 65_534, 0),
        (65_535, 65_535, 9),
        (65_536, 1, 9),
        (65_536, 65_535, 9),
        (u32::MAX, 1, 9),
        (u32::MAX, u32::MAX, 9),
    ] {
        check_placing(&rt, &bytes, 7, placement(1, 0, rows, row), answer);
    }
    Ok(())
}

// The rows end with the bytes at the latest, and no sum or product of the largest numbers wraps.
#[test]
fn rows_end_within_the_bytes(rt: HostRuntime) -> Result<(), Fail> {
    let bytes = counted(rt.alloc(), 131_072)?;
    for (length, start, rows, answer) in [
        (512, 130_048, 2, 0),
        (512, 130_049, 2, 9),
        (2, 2, 65_535, 0),
        (2, 3, 65_535, 9),
        (3, 0, 65_535, 9),
        (512, 0, 256, 0),
        (512, 1, 256, 9),
        (1, 131_070, 2, 0),
        (1, 131_071, 2, 9),
        (1, 131_072, 2, 9),
        (512, usize::MAX - 1023, 2, 9),
        (1, usize::MAX - 1, 2, 9),
        (1, usize::MAX, 2, 9),
        (512, usize::MAX, 65_535, 9),
        (u16::MAX, usize::MAX, u32::MAX, 9),
    ] {
        check_placing(&rt, &bytes, 0, placement(length, start, rows, 1), answer);
    }
    Ok(())
}

#[test]
fn few_bytes(rt: HostRuntime) {
    let cases: [(&[u8], usize, u8); 6] = [
        (&[], 0, 9),
        (&[], usize::MAX, 9),
        (&[5], 0, 9),
        (&[5, 6], 0, 0),
        (&[5, 6], 1, 9),
        (&[5, 6, 7], 1, 0),
    ];
    for (bytes, start, answer) in cases {
        check_placing(&rt, bytes, 0, placement(1, start, 2, 1), answer);
    }
}

// Four rows of one byte, and after them two rows of three, by rows and by columns.
const BY_ROWS: [u8; 10] = [1, 2, 3, 4, 10, 11, 12, 20, 21, 22];

const BY_COLUMNS: [u8; 10] = [1, 2, 3, 4, 10, 20, 11, 21, 12, 22];

const NARROW: Placement = Placement {
    layout: Layout { length: 1 },
    start: 0,
    rows: 4,
    row: 2,
};

const WIDE: Placement = Placement {
    layout: Layout { length: 3 },
    start: 4,
    rows: 2,
    row: 1,
};

#[test]
fn refused_placements_leave_all_as_it_was(rt: HostRuntime) {
    let mut pages = Both::new(&BY_ROWS, &BY_COLUMNS);
    pages.place(&rt, 3, WIDE, 0);
    for (base, length, start, rows, row) in [
        (3, 0, 0, 2, 1),
        (3, 513, 0, 2, 1),
        (3, 1, 0, 1, 1),
        (3, 1, 0, 65_536, 1),
        (3, 1, 0, 2, 0),
        (3, 1, 0, 2, 2),
        (3, 3, 5, 2, 1),
        (3, 3, usize::MAX, 2, 1),
        (4, 3, 5, 2, 1),
        (8, 3, 4, 2, 1),
        (255, 3, 4, 2, 1),
    ] {
        pages.place(&rt, base, placement(length, start, rows, row), 9);
        pages.check_base(&rt, 3, &[20, 21, 22], &[10, 11, 12]);
        pages.check_only(&rt, 3);
    }
}

// A placement takes the place of the one before it, be it longer or shorter, and of no other base's.
#[test]
fn placed_again(rt: HostRuntime) {
    let mut pages = Both::new(&BY_ROWS, &BY_COLUMNS);
    pages.place(&rt, 2, NARROW, 0);
    pages.place(&rt, 5, NARROW, 0);
    pages.place(&rt, 2, WIDE, 0);
    pages.check_base(&rt, 2, &[20, 21, 22], &[10, 11, 12]);
    pages.check_base(&rt, 5, &[3], &[2]);
    pages.place(&rt, 2, NARROW, 0);
    pages.check_base(&rt, 2, &[3], &[2]);
    pages.check_base(&rt, 5, &[3], &[2]);
}
