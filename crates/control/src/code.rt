// Why loading refuses a program.
use std::fmt;

#[derive(Clone, Copy, Debug, PartialEq, Eq)]
pub enum LoadingCode {
    UnknownOpcode = 0x01,
    BadOperand = 0x02,
    PushAtEight = 0x03,
    PopAtZero = 0x04,
    CallTooDeep = 0x05,
    ReturnOutside = 0x06,
    BadAddress = 0x08,
    DepthDiffers = 0x11,
    LeavesSection = 0x12,
    SectionRunsOn = 0x13,
    CallsBack = 0x14,
}

// The number by which a refusal is known outside.
impl From<LoadingCode> for u8 {
    ghost use Rattle.std.specs.Prelude.{◌≡◌};
    ghost use Rattle.control.specs.Codes.{number};

    ghost from_gives = { λ code byte. byte ≡ number code };

    fn from(code: LoadingCode) -> u8 {
        code as u8
    }
}

// A refusal is written as that number, in two hexadecimal digits.
impl fmt::Display for LoadingCode {
    ghost use Rattle.std.specs.Prelude.{Some};
    ghost use Rattle.control.specs.Codes.{number_text};

    ghost output = { λ code. Some (number_text code) };

    fn fmt<W: fmt::Write>(&self, f: &mut fmt::Formatter<W>) -> fmt::Result {
        write!(f, "{:02x}", u8::from(*self))
    }
}
