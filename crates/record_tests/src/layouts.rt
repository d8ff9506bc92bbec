// Which layouts are lawful, and which is absent.
use records::Layout;
use std::test::*;

#[test]
fn lawful_from_1_to_512(rt: HostRuntime) -> Result<(), Fail> {
    for (length, lawful, absent) in [
        (0, false, true),
        (1, true, false),
        (2, true, false),
        (511, true, false),
        (512, true, false),
        (513, false, false),
        (u16::MAX, false, false),
    ] {
        let layout = Layout { length };
        assert_eq!(rt; layout.is_lawful(), lawful, "length {length}");
        assert_eq!(rt; layout.is_absent(), absent, "length {length}");
    }
    Ok(())
}
