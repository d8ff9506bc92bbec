// Images of programs, and what the tests expect of them.
use control::LoadingCode;
use loading::{LoadError, Verdict, judge_image};
use records::Layout;
use std::alloc::{AllocError, Global};
use std::process::Abort;
use std::test::Fail;

// Opcodes here are numbers, and programs pairs of numbers: they are an image's own bytes, and unknown ones are among them.
pub const NOP: u8 = 0x00;

pub const L: u8 = 0x01;

// Its operand bytes may all be 0: EC 0.
pub const PUSH: u8 = 0x0b;

pub const POP: u8 = 0x0d;

pub const JR: u8 = 0x33;

pub const JMP: u8 = 0x39;

pub const CALL: u8 = 0x3a;

pub const RET: u8 = 0x3b;

pub const END: u8 = 0xff;

// No opcode.
pub const UNKNOWN: u8 = 0x3c;

// No operand of any opcode begins with it.
pub const STRANGE: u8 = 0x60;

pub const NO_LAYOUTS: [Layout; 8] = [Layout::ABSENT; 8];

// So many instructions with the same address. The opcode is a number, since images with unknown ones are tested too.
pub fn append(
    image: &mut Vec<u8>,
    count: usize,
    opcode: u8,
    address: u16,
) -> Result<(), AllocError> {
    let [low, high] = address.to_le_bytes();
    for _ in 0..count {
        image.extend_from_slice(&[opcode, low, high, 0, 0])?;
    }
    Ok(())
}

// Instructions by their opcode and first operand byte.
pub fn image_of(heap: Global, program: &[(u8, u8)]) -> Result<Vec<u8>, AllocError> {
    let mut image = Vec::new(heap);
    for &(opcode, first) in program {
        append(&mut image, 1, opcode, u16::from(first))?;
    }
    Ok(image)
}

pub fn refused(code: LoadingCode, number: u16) -> Verdict {
    Err(LoadError::Breaks(code, number))
}

pub fn check_verdict(
    rt: &impl Abort,
    heap: Global,
    program: &[(u8, u8)],
    expected: Verdict,
) -> Result<(), Fail> {
    let image = image_of(heap, program)?;
    assert_eq!(rt; judge_image(&image, &NO_LAYOUTS), expected);
    Ok(())
}

// Each program breaks this rule first, at this instruction.
pub fn check_refusals(
    rt: &impl Abort,
    heap: Global,
    cases: &[(&[(u8, u8)], LoadingCode, u16)],
) -> Result<(), Fail> {
    for &(program, code, number) in cases {
        check_verdict(rt, heap, program, refused(code, number))?;
    }
    Ok(())
}
