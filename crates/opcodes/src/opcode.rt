// The opcodes, by the names that the recorder's maker gives them.
ghost use Rattle.std.specs.Prelude.{◌≡◌, Some};
ghost use Rattle.opcodes.specs.Mnemonics.{mnemonic};
ghost use Rattle.opcodes.specs.Numbers.{number};

use std::fmt;

#[derive(Clone, Copy, Debug, Default, PartialEq, Eq, Hash)]
pub enum Opcode {
    #[default]
    Nop = 0x00,
    L = 0x01,
    Ln = 0x02,
    Assign = 0x03,
    AssignNot = 0x04,
    A = 0x05,
    An = 0x06,
    O = 0x07,
    On = 0x08,
    X = 0x09,
    Xn = 0x0a,
    PushL = 0x0b,
    PushLn = 0x0c,
    PopA = 0x0d,
    PopAn = 0x0e,
    PopO = 0x0f,
    PopOn = 0x10,
    PopX = 0x11,
    PopXn = 0x12,
    Sr = 0x13,
    Rr = 0x14,
    Cr = 0x15,
    S = 0x16,
    R = 0x17,
    C = 0x18,
    Lf = 0x19,
    Lfn = 0x1a,
    AssignF = 0x1b,
    AssignFn = 0x1c,
    Add = 0x1d,
    Sub = 0x1e,
    Mul = 0x1f,
    Div = 0x20,
    Cla = 0x21,
    Clf = 0x22,
    Na = 0x23,
    Nf = 0x24,
    Ab = 0x25,
    Abn = 0x26,
    Ob = 0x27,
    Obn = 0x28,
    Xb = 0x29,
    Xbn = 0x2a,
    Lt = 0x2b,
    Le = 0x2c,
    Eq = 0x2d,
    Ne = 0x2e,
    Gt = 0x2f,
    Ge = 0x30,
    Lc = 0x31,
    Rc = 0x32,
    Jr = 0x33,
    Jnr = 0x34,
    Jp = 0x35,
    Jm = 0x36,
    Jz = 0x37,
    Jnz = 0x38,
    Jmp = 0x39,
    Call = 0x3a,
    Ret = 0x3b,
    Cb = 0x3d,
    Abs = 0x41,
    Int = 0x42,
    Frac = 0x43,
    WholeDiv = 0x44,
    Mod = 0x45,
    Shl = 0x46,
    Shr = 0x47,
    End = 0xff,
}

impl Opcode {
    // As a listing has it.
    pub fn mnemonic(&self) -> &'static str
        ensures { result.now ≡ mnemonic self.now }
    {
        match self {
            Opcode::Nop => "NOP",
            Opcode::L => "L",
            Opcode::Ln => "LN",
            Opcode::Assign => "=",
            Opcode::AssignNot => "=N",
            Opcode::A => "A",
            Opcode::An => "AN",
            Opcode::O => "O",
            Opcode::On => "ON",
            Opcode::X => "X",
            Opcode::Xn => "XN",
            Opcode::PushL => "(L",
            Opcode::PushLn => "(LN",
            Opcode::PopA => "A)",
            Opcode::PopAn => "AN)",
            Opcode::PopO => "O)",
            Opcode::PopOn => "ON)",
            Opcode::PopX => "X)",
            Opcode::PopXn => "XN)",
            Opcode::Sr => "SR",
            Opcode::Rr => "RR",
            Opcode::Cr => "CR",
            Opcode::S => "S",
            Opcode::R => "R",
            Opcode::C => "C",
            Opcode::Lf => "LF",
            Opcode::Lfn => "LFN",
            Opcode::AssignF => "=F",
            Opcode::AssignFn => "=FN",
            Opcode::Add => "+",
            Opcode::Sub => "-",
            Opcode::Mul => "*",
            Opcode::Div => "/",
            Opcode::Cla => "CLA",
            Opcode::Clf => "CLF",
            Opcode::Na => "NA",
            Opcode::Nf => "NF",
            Opcode::Ab => "AB",
            Opcode::Abn => "ABN",
            Opcode::Ob => "OB",
            Opcode::Obn => "OBN",
            Opcode::Xb => "XB",
            Opcode::Xbn => "XBN",
            Opcode::Lt => "LT",
            Opcode::Le => "LE",
            Opcode::Eq => "EQ",
            Opcode::Ne => "NE",
            Opcode::Gt => "GT",
            Opcode::Ge => "GE",
            Opcode::Lc => "LC",
            Opcode::Rc => "RC",
            Opcode::Jr => "JR",
            Opcode::Jnr => "JNR",
            Opcode::Jp => "JP",
            Opcode::Jm => "JM",
            Opcode::Jz => "JZ",
            Opcode::Jnz => "JNZ",
            Opcode::Jmp => "JMP",
            Opcode::Call => "CALL",
            Opcode::Ret => "RET",
            Opcode::Cb => "CB",
            Opcode::Abs => "ABS",
            Opcode::Int => "INT",
            Opcode::Frac => "FRAC",
            Opcode::WholeDiv => "DIV",
            Opcode::Mod => "MOD",
            Opcode::Shl => "<<",
            Opcode::Shr => ">>",
            Opcode::End => "END",
        }
    }
}

impl From<Opcode> for u8 {
    ghost from_gives = { λ opcode byte. byte ≡ number opcode };

    fn from(opcode: Opcode) -> u8 {
        opcode as u8
    }
}

impl fmt::Display for Opcode {
    ghost output = { λ o. Some (mnemonic o) };

    fn fmt<W: fmt::Write>(&self, f: &mut fmt::Formatter<W>) -> fmt::Result {
        f.write_str(self.mnemonic())
    }
}
