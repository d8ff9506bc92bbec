// Operands as text, as the recorder's maker writes them.
ghost use Rattle.std.specs.Prelude.{◌≡◌, Some};
ghost use Rattle.operands.specs.Texts.{letter, base_text, cell_text, format_text, field_text, byte_text, operand_text};

use crate::base_record::BaseRecord;
use crate::cell::Cell;
use crate::operand::{Field, Format, MaskedByte, Operand};
use records::Record;
use std::fmt;

impl fmt::Display for Operand {
    ghost output = { operand_text };

    fn fmt<W: fmt::Write>(&self, f: &mut fmt::Formatter<W>) -> fmt::Result {
        match self {
            Operand::Nothing => Ok(()),
            Operand::Address(target) => write!(f, "{target}"),
            Operand::Cell(cell) => write!(f, "{cell}"),
            Operand::Field(field) => write!(f, "{field}"),
            Operand::Byte(byte) => write!(f, "{byte}"),
            Operand::Constant(value) => write!(f, "~C.{value:?}"),
            Operand::Whole(from) => write!(f, "~P{from}"),
        }
    }
}

impl fmt::Display for Cell {
    ghost output = { λ x. Some (cell_text x) };

    fn fmt<W: fmt::Write>(&self, f: &mut fmt::Formatter<W>) -> fmt::Result {
        match self {
            Cell::Event(which, n) => write!(f, "~E{}.{n}", letter_of(*which)),
            Cell::Definite(which, n) => write!(f, "~D{}.{n}", letter_of(*which)),
            Cell::Marker(n) => write!(f, "~M.{n}"),
            Cell::Register(n) => write!(f, "~R.{n}"),
            Cell::Counter(n) => write!(f, "~CT.{n}"),
            Cell::Activity(base) => write!(f, "~BF.{base}"),
        }
    }
}

impl fmt::Display for Field {
    ghost output = { λ x. Some (field_text x) };

    fn fmt<W: fmt::Write>(&self, f: &mut fmt::Formatter<W>) -> fmt::Result {
        let Field {
            from,
            offset,
            format,
            length,
        } = self;
        write!(f, "~F{from}.{offset:X}.{format}{length}")
    }
}

impl fmt::Display for MaskedByte {
    ghost output = { λ x. Some (byte_text x) };

    fn fmt<W: fmt::Write>(&self, f: &mut fmt::Formatter<W>) -> fmt::Result {
        let MaskedByte { from, offset, mask } = self;
        write!(f, "~B{from}.{offset:X}&{mask:X}")
    }
}

// The record's letter, which ends the name of an operand's kind, and the base.
impl fmt::Display for BaseRecord {
    ghost output = { λ x. Some (base_text x) };

    fn fmt<W: fmt::Write>(&self, f: &mut fmt::Formatter<W>) -> fmt::Result {
        write!(f, "{}.{}", letter_of(self.which), self.base)
    }
}

impl fmt::Display for Format {
    ghost output = { λ x. Some (format_text x) };

    fn fmt<W: fmt::Write>(&self, f: &mut fmt::Formatter<W>) -> fmt::Result {
        f.write_str(match self {
            Format::Bcd => "b",
            Format::Unsigned => "u",
            Format::Signed => "s",
        })
    }
}

// No Display of `Record`: elsewhere it is written by its name, and only an operand has the letter.
fn letter_of(which: Record) -> &'static str
    ensures { result.now ≡ letter which }
{
    match which {
        Record::Current => "C",
        Record::Previous => "P",
    }
}
