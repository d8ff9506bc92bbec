// What a record says, and what turning a table does.
use metering::{Growth, check_sum_holds, columns, copy_record, total};
use pages::{Placement, RowPage};
use records::{Layout, Record};
use std::test::Fail;

#[test]
fn check_sums(rt: HostRuntime) {
    assert!(rt; !check_sum_holds(&[]));
    assert!(rt; check_sum_holds(&[0]));
    assert!(rt; !check_sum_holds(&[1]));
    assert!(rt; check_sum_holds(&[7, 7]));
    assert!(rt; check_sum_holds(&[200, 100, 44]));
    assert!(rt; !check_sum_holds(&[200, 100, 45]));
    assert!(rt; check_sum_holds(&[255, 255, 255, 253]));
}

// The total's four bytes, in a record that is otherwise empty.
fn record_of(digits: [u8; 4]) -> [u8; 100] {
    let mut bytes = [0u8; 100];
    bytes[95..99].copy_from_slice(&digits);
    bytes
}

#[test]
fn totals(rt: HostRuntime) {
    assert_eq!(rt; total(&record_of([0x56, 0x34, 0x12, 0x00])), Some(123_456));
    assert_eq!(rt;
        total(&record_of([0x99, 0x99, 0x99, 0x99])),
        Some(99_999_999)
    );
    assert_eq!(rt;
        total(&record_of([0x00, 0x00, 0x00, 0x10])),
        Some(10_000_000)
    );
    assert_eq!(rt; total(&record_of([0x0a, 0x00, 0x00, 0x00])), None);
    assert_eq!(rt; total(&record_of([0x00, 0x00, 0x00, 0xa0])), None);
    assert_eq!(rt; total(&[0; 98]), None);
    assert_eq!(rt; total(&[0; 99]), Some(0));
}

#[test]
fn growths(rt: HostRuntime) {
    assert_eq!(rt; Growth::between(Some(7), Some(5)), Some(Growth::Rise(2)));
    assert_eq!(rt; Growth::between(Some(5), Some(5)), Some(Growth::Rise(0)));
    assert_eq!(rt; Growth::between(Some(5), Some(7)), Some(Growth::Fall(2)));
    assert_eq!(rt; Growth::between(None, Some(7)), None);
    assert_eq!(rt; Growth::between(Some(7), None), None);
}

#[test]
fn tables_are_turned(rt: HostRuntime) -> Result<(), Fail> {
    let turned = columns(rt.alloc(), &[1, 2, 3, 4, 5, 6], 3)?;
    assert!(rt; turned.as_slice() == [1, 4, 2, 5, 3, 6].as_slice());
    let none = columns(rt.alloc(), &[1, 2, 3], 0)?;
    assert!(rt; none.is_empty());
    Ok(())
}

#[test]
fn records_are_copied(rt: HostRuntime) -> Result<(), Fail> {
    let bytes = [9, 1, 2, 3, 4, 5, 6];
    let mut page = RowPage::new(&bytes);
    let at = Placement {
        layout: Layout { length: 3 },
        start: 1,
        rows: 2,
        row: 1,
    };
    page.place(2, at)?;
    let current = copy_record(rt.alloc(), &page, 2, Record::Current)?;
    assert!(rt; current.as_slice() == [4, 5, 6].as_slice());
    let previous = copy_record(rt.alloc(), &page, 2, Record::Previous)?;
    assert!(rt; previous.as_slice() == [1, 2, 3].as_slice());
    let absent = copy_record(rt.alloc(), &page, 3, Record::Current)?;
    assert!(rt; absent.is_empty());
    Ok(())
}
