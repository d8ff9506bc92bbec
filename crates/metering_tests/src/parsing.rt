// What the text of an archive must be.
use metering::{Archive, ArchiveFault, parse_bytes};
use std::alloc::{AllocError, Global};
use std::test::Fail;

// A line of `count` bytes, each written as `byte`, with some text after the last.
fn line(heap: Global, byte: &str, count: usize, end: &str) -> Result<String, AllocError> {
    let mut text = String::new(heap);
    for _ in 0..count {
        text.push_str(byte)?;
        text.push_str(" ")?;
    }
    text.push_str(end)?;
    Ok(text)
}

fn fault(heap: Global, text: &str) -> Option<ArchiveFault> {
    Archive::parse(heap, text).err()
}

#[test]
fn whole_records_are_taken(rt: HostRuntime) -> Result<(), Fail> {
    let heap = rt.alloc();
    let mut text = String::from_str(heap, "# a comment\n\n")?;
    text.push_str(line(heap, "0a", 100, "\n")?.as_str())?;
    text.push_str(line(heap, "F9", 100, "\n# another\n")?.as_str())?;
    let archive = Archive::parse(heap, text.as_str())?;
    assert_eq!(rt; archive.records(), 2);
    let bytes = archive.bytes();
    assert!(rt; bytes.len() == 200);
    assert_eq!(rt; bytes[0], 10);
    assert_eq!(rt; bytes[99], 10);
    assert_eq!(rt; bytes[100], 249);
    assert_eq!(rt; bytes[199], 249);
    Ok(())
}

// Each archive has two records at least. Whoever is lent one knows it, so no index is tested here.
fn first_and_last_of_two(archive: &Archive) -> (u8, u8) {
    (archive.bytes()[0], archive.bytes()[199])
}

#[test]
fn an_archive_has_two_records(rt: HostRuntime) -> Result<(), Fail> {
    let heap = rt.alloc();
    let mut text = line(heap, "0a", 100, "\n")?;
    text.push_str(line(heap, "F9", 100, "\n")?.as_str())?;
    let archive = Archive::parse(heap, text.as_str())?;
    assert_eq!(rt; first_and_last_of_two(&archive), (10, 249));
    Ok(())
}

#[test]
fn other_texts_are_refused(rt: HostRuntime) -> Result<(), Fail> {
    let heap = rt.alloc();
    assert_eq!(rt; fault(heap, ""), Some(ArchiveFault::WrongCount(0)));
    let one = line(heap, "00", 100, "\n")?;
    assert_eq!(rt;
        fault(heap, one.as_str()),
        Some(ArchiveFault::WrongCount(1))
    );
    let short = line(heap, "00", 99, "\n")?;
    assert_eq!(rt;
        fault(heap, short.as_str()),
        Some(ArchiveFault::WrongLength(1))
    );
    let long = line(heap, "00", 101, "\n")?;
    assert_eq!(rt;
        fault(heap, long.as_str()),
        Some(ArchiveFault::WrongLength(1))
    );
    let longer = line(heap, "00", 100, "0g\n")?;
    assert_eq!(rt;
        fault(heap, longer.as_str()),
        Some(ArchiveFault::WrongLength(1))
    );
    let mut returned = String::new(heap);
    returned.push_str(line(heap, "00", 100, "\r\n")?.as_str())?;
    returned.push_str(line(heap, "00", 100, "\r\n\r")?.as_str())?;
    assert_eq!(rt;
        fault(heap, returned.as_str()),
        Some(ArchiveFault::WrongLength(3))
    );
    let letter = line(heap, "00", 99, "0g\n")?;
    assert_eq!(rt;
        fault(heap, letter.as_str()),
        Some(ArchiveFault::NotAByte(1))
    );
    let wide = line(heap, "00", 99, "\n\n000\n")?;
    assert_eq!(rt;
        fault(heap, wide.as_str()),
        Some(ArchiveFault::WrongLength(1))
    );
    assert_eq!(rt; fault(heap, "#\n\n000\n"), Some(ArchiveFault::NotAByte(3)));
    Ok(())
}

#[test]
fn bytes_stand_in_any_lines(rt: HostRuntime) -> Result<(), Fail> {
    let heap = rt.alloc();
    let none = parse_bytes(heap, "# a comment\r\n\r\n")?;
    assert!(rt; none.is_empty());
    let bytes = parse_bytes(heap, "# 0g\r\n\r\n\t0a  fF\r\n\n00")?;
    assert!(rt; bytes.as_slice() == [10, 255, 0].as_slice());
    assert_eq!(rt;
        parse_bytes(heap, "00\n\n00 0 0\n#\n0g").err(),
        Some(ArchiveFault::NotAByte(3))
    );
    assert_eq!(rt;
        parse_bytes(heap, "00\n #").err(),
        Some(ArchiveFault::NotAByte(2))
    );
    Ok(())
}
