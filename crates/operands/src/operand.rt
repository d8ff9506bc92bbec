// What an instruction works on.
use crate::base_record::BaseRecord;
use crate::cell::Cell;

#[derive(Clone, Copy, Debug, Default, PartialEq)]
pub enum Operand {
    // None is taken, and the bytes are not looked at.
    #[default]
    Nothing,
    // The number of an instruction.
    Address(u16),
    Cell(Cell),
    Field(Field),
    Byte(MaskedByte),
    Constant(f64),
    Whole(BaseRecord),
}

// How a field's bytes make a number.
#[derive(Clone, Copy, Debug, PartialEq, Eq)]
pub enum Format {
    Bcd,
    Unsigned,
    Signed,
}

// A number of one to four bytes in a record, from the least significant byte on.
#[derive(Clone, Copy, Debug, PartialEq, Eq)]
pub struct Field {
    pub from: BaseRecord,
    pub offset: u16,
    pub format: Format,
    pub length: u8,
}

// A byte of a record, joined with a mask by and.
#[derive(Clone, Copy, Debug, PartialEq, Eq)]
pub struct MaskedByte {
    pub from: BaseRecord,
    pub offset: u16,
    pub mask: u8,
}
