// The interpreter's cells, and the bytes that name them.
ghost use Rattle.std.specs.Prelude.{◌≡◌};
ghost use Rattle.operands.specs.Cells.{cell};

use constants::OperandBytes;
use records::Record;

#[derive(Clone, Copy, Debug, PartialEq, Eq)]
pub enum Cell {
    // Event bits and their definiteness bits, of the current cycle or as the previous one left them.
    Event(Record, u8),
    Definite(Record, u8),
    Marker(u8),
    Register(u8),
    Counter(u8),
    // The activity flag of a base.
    Activity(u8),
}

// The cell that an operand's first byte and number name. An operand that does not fit is just none, so there is no error to tell.
pub fn cell_of(bytes: OperandBytes) -> Option<Cell>
    ensures { result ≡ cell bytes.p1 bytes.p2 }
{
    let number = bytes.p2;
    match bytes.p1 {
        0x00 => Some(Cell::Event(Record::Current, number)),
        0x08 => Some(Cell::Event(Record::Previous, number)),
        0x10 => Some(Cell::Definite(Record::Current, number)),
        0x18 => Some(Cell::Definite(Record::Previous, number)),
        0x20 => Some(Cell::Marker(number)),
        0x28 => Some(Cell::Register(number)),
        0x30 => Some(Cell::Counter(number)),
        0x38..=0x3f => Some(Cell::Activity(bytes.p1 - 0x38)),
        _ => None,
    }
}
