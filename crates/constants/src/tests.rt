// Constants by example: expected values are decimal literals, which the compiler rounds once.
use crate::OperandBytes;
use std::test::Fail;

#[test]
fn bytes_and_their_values(rt: HostRuntime) {
    let cases = [
        (0xC0_50_23_12, Some(12.35)),
        (0xC1_50_23_12, Some(-12.35)),
        (0x00_50_23_12, Some(12.35)),
        (0xC0_00_00_10, Some(0.1)),
        (0xC0_00_00_20, Some(0.2)),
        (0xC2_00_00_20, Some(0.2)),
        (0xC2_00_00_23, Some(0.0002)),
        (0xC2_00_50_23, Some(0.00025)),
        (0xC3_00_50_23, Some(-0.00025)),
        (0xC0_00_00_41, Some(4.0)),
        (0xC0_45_23_15, Some(12345.0)),
        (0xC0_45_23_16, Some(123450.0)),
        // zero, whatever the other bytes are
        (0xC0_00_00_00, Some(0.0)),
        (0xCF_FF_AB_00, Some(0.0)),
        // exponents 27 and -17, and one past them
        (0xC4_99_99_9B, Some(99999e22)),
        (0xC5_99_99_9B, Some(-99999e22)),
        (0xC4_00_00_1C, None),
        (0xC6_00_00_11, Some(1e-18)),
        (0xC6_99_99_91, Some(9.9999e-18)),
        (0xC6_99_99_92, None),
        (0xC8_00_00_10, None),
        (0xCE_00_00_1F, None),
        // a digit of ten, at each place, and a first digit of 0
        (0xC0_00_00_A1, None),
        (0xC0_00_A0_11, None),
        (0xC0_00_0A_11, None),
        (0xC0_A0_00_11, None),
        (0xC0_0A_00_11, None),
        (0xC0_99_99_01, None),
    ];
    for (bytes, expected) in cases {
        let [p1, p2, p3, p4] = u32::to_be_bytes(bytes);
        let operand = OperandBytes { p1, p2, p3, p4 };
        assert_eq!(rt; operand.constant(), expected, "{bytes:08X}");
    }
}

// Equality does not tell the two zeros apart; their reciprocals do.
#[test]
fn zero_is_positive(rt: HostRuntime) -> Result<(), Fail> {
    let operand = OperandBytes {
        p1: 0xC1,
        p2: 0xFF,
        p3: 0xAB,
        p4: 0x00,
    };
    let zero = operand.constant().ok_or("none")?;
    assert!(rt; 1.0 / zero > 0.0);
    Ok(())
}
