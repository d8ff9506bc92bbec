// Whether sources mean the same.
use crate::inputs::placement;
use pages::{ColumnPage, Placement, RowPage};
use records::{Layout, agree};
use std::test::*;

// The rows 1 and 2 of four, each of two bytes.
const MIDDLE: Placement = Placement {
    layout: Layout { length: 2 },
    start: 0,
    rows: 4,
    row: 2,
};

const BYTES: [u8; 8] = [1, 2, 3, 4, 5, 6, 7, 8];

// Only the bytes of rows 1 and 2 matter.
#[test]
fn one_byte_differs(rt: HostRuntime) -> Result<(), Fail> {
    let mut a = RowPage::new(&BYTES);
    a.place(7, MIDDLE)?;
    for (place, expected) in [
        (0, true),
        (1, true),
        (2, false),
        (3, false),
        (4, false),
        (5, false),
        (6, true),
        (7, true),
    ] {
        let mut bytes = BYTES;
        assert!(rt; place < 8);
        bytes[place] = 99;
        let mut b = RowPage::new(&bytes);
        b.place(7, MIDDLE)?;
        assert_eq!(rt; agree(&a, &b), expected, "byte {place}");
        assert_eq!(rt; agree(&b, &a), expected, "byte {place}");
    }
    Ok(())
}

// A page of the same bytes agrees if it has the same records at the same base, wherever it has them from.
#[test]
fn one_placement_differs(rt: HostRuntime) -> Result<(), Fail> {
    let mut a = RowPage::new(&BYTES);
    a.place(0, MIDDLE)?;
    for (base, length, start, rows, row, expected) in [
        (0, 2, 0, 4, 2, true),
        (0, 2, 0, 3, 2, true),
        (0, 2, 2, 2, 1, true),
        (0, 2, 0, 4, 1, false),
        (0, 2, 1, 3, 2, false),
        (0, 1, 2, 2, 1, false),
        (0, 3, 0, 2, 1, false),
        (1, 2, 0, 4, 2, false),
    ] {
        let mut b = RowPage::new(&BYTES);
        b.place(base, placement(length, start, rows, row))?;
        assert_eq!(rt;
            agree(&a, &b),
            expected,
            "base {base}, length {length}, start {start}, row {row} of {rows}"
        );
        assert_eq!(rt; agree(&b, &a), expected);
    }
    Ok(())
}

#[test]
fn absent_pages(rt: HostRuntime) -> Result<(), Fail> {
    let a = RowPage::new(&BYTES);
    let b = ColumnPage::new(&[]);
    assert!(rt; agree(&a, &b));
    let mut c = RowPage::new(&BYTES);
    c.place(3, MIDDLE)?;
    assert!(rt; !agree(&a, &c));
    assert!(rt; !agree(&c, &b));
    Ok(())
}

// Four rows of two bytes and three rows of three, by rows and by columns.
#[test]
fn transposed_tables(rt: HostRuntime) -> Result<(), Fail> {
    let by_rows = [10, 11, 20, 21, 30, 31, 40, 41, 1, 2, 3, 4, 5, 6, 7, 8, 9];
    let by_columns = [10, 20, 30, 40, 11, 21, 31, 41, 1, 4, 7, 2, 5, 8, 3, 6, 9];
    let three_rows = placement(3, 8, 3, 2);
    let mut rows = RowPage::new(&by_rows);
    rows.place(0, MIDDLE)?;
    rows.place(7, three_rows)?;
    let mut columns = ColumnPage::new(&by_columns);
    columns.place(0, MIDDLE)?;
    columns.place(7, three_rows)?;
    assert!(rt; agree(&rows, &columns));
    rows.turn(7, 1)?;
    assert!(rt; !agree(&rows, &columns));
    columns.turn(7, 1)?;
    assert!(rt; agree(&rows, &columns));
    Ok(())
}

#[test]
fn the_same_bytes_by_rows_and_by_columns(rt: HostRuntime) -> Result<(), Fail> {
    let mut rows = RowPage::new(&BYTES);
    rows.place(0, MIDDLE)?;
    let mut columns = ColumnPage::new(&BYTES);
    columns.place(0, MIDDLE)?;
    assert!(rt; !agree(&rows, &columns));
    let single = placement(1, 0, 8, 7);
    rows.place(0, single)?;
    columns.place(0, single)?;
    assert!(rt; agree(&rows, &columns));
    Ok(())
}
