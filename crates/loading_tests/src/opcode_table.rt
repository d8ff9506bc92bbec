// Every opcode with every first operand byte.
use crate::images::refused;
use control::LoadingCode;
use loading::{Verdict, judge_image};
use opcodes::{admits, is_known, takes_operand};
use records::Layout;

#[derive(Clone, Copy)]
enum Family {
    Source,
    Destination,
    Whole,
    Counter,
    Record,
    Address,
    Nothing,
    Unknown,
}

// By number, as the rules list them: all 256 are tested, and opcodes that the table does not know are among them.
fn family_of(opcode: u8) -> Family {
    match opcode {
        0x01 | 0x02 | 0x05..=0x0c | 0x19 | 0x1a | 0x1d..=0x20 | 0x25..=0x30 | 0x46 | 0x47 => {
            Family::Source
        }
        0x03 | 0x04 | 0x16..=0x18 | 0x1b | 0x1c | 0x22 | 0x24 => Family::Destination,
        0x44 | 0x45 => Family::Whole,
        0x31 | 0x32 => Family::Counter,
        0x3d => Family::Record,
        0x33..=0x3a => Family::Address,
        0x00 | 0x0d..=0x15 | 0x21 | 0x23 | 0x3b | 0x41..=0x43 | 0xff => Family::Nothing,
        _ => Family::Unknown,
    }
}

// Whether some operand of the family begins in the same eight first bytes.
fn column_admitted(family: Family, first: u8) -> bool {
    match family {
        Family::Source => matches!(first, 0x00..=0x5f | 0xc0..=0xcf),
        Family::Destination => first < 0x40,
        Family::Whole => matches!(first, 0x28..=0x2f | 0x40..=0x5f | 0xc0..=0xcf),
        Family::Counter => matches!(first, 0x30..=0x37),
        Family::Record => matches!(first, 0xd0..=0xdf),
        Family::Address | Family::Nothing => true,
        Family::Unknown => false,
    }
}

#[test]
fn families(rt: HostRuntime) {
    for opcode in 0..=255 {
        let (known, operand) = match family_of(opcode) {
            Family::Unknown => (false, false),
            Family::Address | Family::Nothing => (true, false),
            _ => (true, true),
        };
        assert_eq!(rt; is_known(opcode), known, "{opcode:02X}");
        assert_eq!(rt; takes_operand(opcode), operand, "{opcode:02X}");
        for first in 0..=255 {
            assert_eq!(rt;
                admits(opcode, first),
                column_admitted(family_of(opcode), first),
                "{opcode:02X} {first:02X}"
            );
        }
    }
}

// Whether this byte and 00 00 41 after it are an operand of the family, with all bases present. 41 makes fields unsigned, of one
// byte. Constants from C8 on are too large or too small then.
fn fits(family: Family, first: u8) -> bool {
    match first {
        0x00 | 0x08 | 0x10 | 0x18 | 0x20 | 0x28 | 0x30 | 0x38..=0x5f | 0xc0..=0xc7 | 0xd0..=0xdf =>
            { column_admitted(family, first) }
        _ => false,
    }
}

// The verdict on an instruction with this opcode and first operand byte, and the end after it. By number, like `family_of`.
fn expected(opcode: u8, first: u8) -> Verdict {
    match family_of(opcode) {
        Family::Unknown => refused(LoadingCode::UnknownOpcode, 0),
        Family::Address => expected_at_address(opcode, first),
        Family::Nothing => match opcode {
            0x0d..=0x12 => refused(LoadingCode::PopAtZero, 0),
            0x3b => refused(LoadingCode::ReturnOutside, 0),
            0xff => Ok(Some(1)),
            _ => Ok(Some(2)),
        },
        known => {
            if fits(known, first) {
                Ok(Some(2))
            } else {
                refused(LoadingCode::BadOperand, 0)
            }
        }
    }
}

// Address 0 is the instruction's own, 1 the end's, and there is no other. By number, like `family_of`.
fn expected_at_address(opcode: u8, address: u8) -> Verdict {
    if address >= 2 {
        return refused(LoadingCode::BadAddress, 0);
    }
    if opcode == 0x3a {
        if address == 0 {
            return refused(LoadingCode::CallsBack, 0);
        }
        return refused(LoadingCode::SectionRunsOn, 0);
    }
    if address == 0 { Ok(None) } else { Ok(Some(2)) }
}

#[test]
fn before_the_end(rt: HostRuntime) {
    let layouts = [Layout { length: 1 }; 8];
    for opcode in 0..=255 {
        for first in 0..=255 {
            let image = [opcode, first, 0, 0, 0x41, 0xff, 0, 0, 0, 0];
            assert_eq!(rt;
                judge_image(&image, &layouts),
                expected(opcode, first),
                "{opcode:02X} {first:02X}"
            );
        }
    }
}

// An operand that fits, or the instruction's own address. By number, like `family_of`.
fn fitting_byte(opcode: u8) -> u8 {
    match family_of(opcode) {
        Family::Whole => 0x28,
        Family::Counter => 0x30,
        Family::Record => 0xd0,
        Family::Address => 1,
        _ => 0,
    }
}

// The verdict on the end, and an instruction of this opcode and its `fitting_byte` after it. By number, like `family_of`.
fn expected_as_last(opcode: u8) -> Verdict {
    match opcode {
        0x0d..=0x12 => refused(LoadingCode::PopAtZero, 1),
        0x39 => Ok(None),
        0x3b => refused(LoadingCode::ReturnOutside, 1),
        0xff => Ok(Some(1)),
        _ => match family_of(opcode) {
            Family::Unknown => refused(LoadingCode::UnknownOpcode, 1),
            _ => refused(LoadingCode::SectionRunsOn, 1),
        },
    }
}

#[test]
fn after_the_end(rt: HostRuntime) {
    let layouts = [Layout { length: 1 }; 8];
    for opcode in 0..=255 {
        let image = [0xff, 0, 0, 0, 0, opcode, fitting_byte(opcode), 0, 0, 0x41];
        assert_eq!(rt;
            judge_image(&image, &layouts),
            expected_as_last(opcode),
            "{opcode:02X}"
        );
    }
}
