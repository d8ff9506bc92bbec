// Which bytes of a page are the records of a base.
use crate::both::Both;
use crate::expected::check_base;
use crate::inputs::{counted, placement};
use records::{Record, Source};
use std::process::Abort;
use std::test::*;

// 24 letters, so that byte 0 is A and byte 23 is X.
const LETTERS: &[u8; 24] = b"ABCDEFGHIJKLMNOPQRSTUVWX";

#[test]
fn new_pages_are_absent(rt: HostRuntime) {
    let pages = Both::new(LETTERS, LETTERS);
    pages.check_base(&rt, 0, &[], &[]);
    pages.check_only(&rt, 0);
}

// Base 0 lies inside the bytes, base 1 has one byte to a row, base 6 takes all the bytes, and base 7 ends with them.
#[test]
fn by_rows_and_by_columns(rt: HostRuntime) {
    let mut pages = Both::new(LETTERS, LETTERS);
    for (base, length, start, rows, row) in [
        (0, 3, 2, 4, 2),
        (1, 1, 20, 2, 1),
        (6, 12, 0, 2, 1),
        (7, 5, 4, 4, 3),
    ] {
        pages.place(&rt, base, placement(length, start, rows, row), 0);
    }
    check_base(&rt, "in rows", &pages.rows, 0, b"IJK", b"FGH");
    check_base(&rt, "in rows", &pages.rows, 1, b"V", b"U");
    check_base(
        &rt,
        "in rows",
        &pages.rows,
        6,
        b"MNOPQRSTUVWX",
        b"ABCDEFGHIJKL",
    );
    check_base(&rt, "in rows", &pages.rows, 7, b"TUVWX", b"OPQRS");
    check_base(&rt, "in columns", &pages.columns, 0, b"EIM", b"DHL");
    check_base(&rt, "in columns", &pages.columns, 1, b"V", b"U");
    check_base(
        &rt,
        "in columns",
        &pages.columns,
        6,
        b"BDFHJLNPRTVX",
        b"ACEGIKMOQSUW",
    );
    check_base(&rt, "in columns", &pages.columns, 7, b"HLPTX", b"GKOSW");
}

// Base b has the two rows of one byte that begin at 3 * b.
#[test]
fn eight_bases(rt: HostRuntime) {
    let mut pages = Both::new(LETTERS, LETTERS);
    for base in 0..8u8 {
        pages.place(&rt, base, placement(1, 3 * base as usize, 2, 1), 0);
    }
    for base in 0..8 {
        let first = b'A' + 3 * base;
        pages.check_base(&rt, base, &[first + 1], &[first]);
    }
}

#[test]
fn the_longest_records(rt: HostRuntime) -> Result<(), Fail> {
    let bytes = counted(rt.alloc(), 1024)?;
    let longest = placement(512, 0, 2, 1);
    let mut pages = Both::new(&bytes, &bytes);
    pages.place(&rt, 0, longest, 0);
    check_bytes(
        &rt,
        &pages.rows,
        [
            (0, Some(10), Some(0)),
            (1, Some(11), Some(1)),
            (511, Some(19), Some(9)),
            (512, None, None),
        ],
    );
    check_bytes(
        &rt,
        &pages.columns,
        [
            (0, Some(1), Some(0)),
            (1, Some(3), Some(2)),
            (511, Some(19), Some(18)),
            (512, None, None),
        ],
    );
    Ok(())
}

// Bytes of base 0 at some offsets, in its current record and in its previous one.
fn check_bytes<S: Source>(
    rt: &impl Abort,
    source: &S,
    cases: [(usize, Option<u8>, Option<u8>); 4],
) {
    for (offset, current, previous) in cases {
        assert_eq!(rt;
            source.byte(0, Record::Current, offset),
            current,
            "offset {offset}"
        );
        assert_eq!(rt;
            source.byte(0, Record::Previous, offset),
            previous,
            "offset {offset}"
        );
    }
}
