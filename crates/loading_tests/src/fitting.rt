// Which operand bytes fit an opcode and the layouts.
use crate::images::refused;
use control::LoadingCode;
use loading::judge_image;
use records::Layout;
use std::process::Abort;

// Base 0 has records of 4 bytes, base 2 of 1, base 3 of 512; the others are absent.
const LAYOUTS: [Layout; 8] = [
    Layout { length: 4 },
    Layout::ABSENT,
    Layout { length: 1 },
    Layout { length: 512 },
    Layout::ABSENT,
    Layout::ABSENT,
    Layout::ABSENT,
    Layout::ABSENT,
];

// An opcode and its operand bytes, as one number, so that a case is one line of hexadecimal.
fn check_fitting(rt: &impl Abort, instruction: u64, expected: bool) {
    let [_, _, _, opcode, p1, p2, p3, p4] = u64::to_be_bytes(instruction);
    let image = [opcode, p1, p2, p3, p4, 0xff, 0, 0, 0, 0];
    let verdict = judge_image(&image, &LAYOUTS);
    let fits = verdict != refused(LoadingCode::BadOperand, 0);
    assert_eq!(rt; fits, expected, "{instruction:010X}");
}

#[test]
fn cells(rt: HostRuntime) {
    for (instruction, expected) in [
        (0x01_00_FF_EE_DD, true),
        (0x01_01_00_00_00, false),
        (0x01_07_00_00_00, false),
        (0x01_08_00_00_00, true),
        (0x01_09_00_00_00, false),
        (0x01_10_00_00_00, true),
        (0x01_18_00_00_00, true),
        (0x01_20_00_00_00, true),
        (0x01_28_00_00_00, true),
        (0x01_2F_00_00_00, false),
        (0x01_30_00_00_00, true),
        (0x01_37_00_00_00, false),
        // an activity flag is there for an absent base too
        (0x01_38_00_00_00, true),
        (0x01_39_00_00_00, true),
        (0x01_3F_FF_FF_FF, true),
        (0x03_28_FF_00_00, true),
        (0x03_29_00_00_00, false),
        (0x03_3F_00_00_00, true),
        (0x44_28_00_00_00, true),
        (0x44_29_00_00_00, false),
        (0x44_00_00_00_00, false),
        (0x44_20_00_00_00, false),
        (0x44_30_00_00_00, false),
        (0x44_38_00_00_00, false),
        (0x31_30_05_00_00, true),
        (0x31_31_00_00_00, false),
        (0x32_28_00_00_00, false),
        // no cell is a record, and an opcode without an operand does not look
        (0x3D_00_00_00_00, false),
        (0x00_FF_FF_FF_FF, true),
        (0x13_60_00_00_00, true),
        (0x41_01_00_00_00, true),
    ] {
        check_fitting(&rt, instruction, expected);
    }
}

#[test]
fn fields(rt: HostRuntime) {
    for (instruction, expected) in [
        // from 4 bytes: to the last, and one beyond
        (0x01_40_00_00_04, true),
        (0x01_40_01_00_04, false),
        (0x01_40_01_00_03, true),
        (0x01_40_03_00_01, true),
        (0x01_40_03_00_02, false),
        (0x01_40_04_00_01, false),
        (0x01_48_00_00_04, true),
        (0x01_48_01_00_04, false),
        (0x01_42_00_00_01, true),
        (0x01_42_00_00_02, false),
        // from 512 bytes
        (0x01_43_FC_01_04, true),
        (0x01_43_FD_01_04, false),
        (0x01_4B_FF_01_01, true),
        (0x01_4B_00_02_01, false),
        (0x01_43_FF_FF_01, false),
        (0x01_43_FE_FF_04, false),
        // from an absent base
        (0x01_41_00_00_01, false),
        (0x01_49_00_00_01, false),
        (0x01_4F_00_00_01, false),
        // lengths and formats
        (0x01_43_00_00_00, false),
        (0x01_43_00_00_05, false),
        (0x01_43_00_00_40, false),
        (0x01_43_00_00_44, true),
        (0x01_43_00_00_45, false),
        (0x01_43_00_00_C4, true),
        (0x01_43_00_00_C5, false),
        (0x01_43_00_00_84, false),
        (0x01_43_00_00_14, false),
        (0x01_43_00_00_34, false),
        (0x01_43_00_00_F4, false),
        // as a whole divisor, and never as a destination
        (0x44_40_00_00_04, true),
        (0x44_40_01_00_04, false),
        (0x03_40_00_00_04, false),
    ] {
        check_fitting(&rt, instruction, expected);
    }
}

#[test]
fn bytes_records_and_constants(rt: HostRuntime) {
    for (instruction, expected) in [
        (0x01_50_03_00_00, true),
        (0x01_50_04_00_FF, false),
        (0x01_58_03_00_FF, true),
        (0x01_58_04_00_FF, false),
        (0x01_53_FF_01_0F, true),
        (0x01_53_00_02_0F, false),
        (0x01_5B_FF_FF_0F, false),
        (0x01_51_00_00_FF, false),
        (0x01_59_00_00_FF, false),
        (0x45_58_03_00_01, true),
        (0x04_50_03_00_01, false),
        // records of present and of absent bases
        (0x3D_D0_FF_FF_FF, true),
        (0x3D_D8_00_00_00, true),
        (0x3D_D2_00_00_00, true),
        (0x3D_DB_00_00_00, true),
        (0x3D_D1_00_00_00, false),
        (0x3D_D9_00_00_00, false),
        (0x3D_40_00_00_01, false),
        (0x3D_E0_00_00_00, false),
        (0x01_D0_00_00_00, false),
        // 4, 0, and constants with a digit of ten or too large an exponent
        (0x01_C0_00_00_41, true),
        (0x01_C1_00_00_41, true),
        (0x01_C0_00_00_00, true),
        (0x01_C0_00_00_A1, false),
        (0x01_C0_0A_00_11, false),
        (0x01_C8_00_00_10, false),
        (0x45_C0_00_00_41, true),
        (0x45_C0_00_00_A1, false),
        (0x03_C0_00_00_41, false),
        // nothing begins so
        (0x01_60_00_00_01, false),
        (0x01_BF_00_00_01, false),
        (0x01_E0_00_00_01, false),
        (0x01_FF_00_00_01, false),
    ] {
        check_fitting(&rt, instruction, expected);
    }
}
