// What the tests expect of a source.
use records::{Record, Source};
use std::process::Abort;

// Both records of a base, each given to its last byte and no further. An absent base has none.
// A source and what messages call it stay two arguments: each call has another pair.
pub fn check_base<S: Source>(
    rt: &impl Abort,
    place: &str,
    source: &S,
    base: u8,
    current: &[u8],
    previous: &[u8],
) {
    let length = source.layout(base).length as usize;
    assert_eq!(rt; length, current.len(), "{place}, length of base {base}");
    check_record(rt, place, source, base, Record::Current, current);
    check_record(rt, place, source, base, Record::Previous, previous);
}

fn check_record<S: Source>(
    rt: &impl Abort,
    place: &str,
    source: &S,
    base: u8,
    which: Record,
    bytes: &[u8],
) {
    for (offset, byte) in bytes.iter().enumerate() {
        assert_eq!(rt;
            source.byte(base, which, offset),
            Some(*byte),
            "{place}, {which:?} record of base {base}, offset {offset}"
        );
    }
    for offset in [bytes.len(), usize::MAX] {
        assert_eq!(rt;
            source.byte(base, which, offset),
            None,
            "{place}, {which:?} record of base {base}, offset {offset}"
        );
    }
}

// Every base but this one is absent.
pub fn check_only<S: Source>(rt: &impl Abort, place: &str, source: &S, present: u8) {
    for base in 0..=255 {
        if base != present {
            check_base(rt, place, source, base, &[], &[]);
        }
    }
}
