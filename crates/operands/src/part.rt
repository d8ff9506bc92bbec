// Fields, bytes and whole records as operands: each must lie inside its base's layout.
ghost use Rattle.std.specs.Prelude.{◌≡◌, ◌+◌, ◌*◌};
ghost use Rattle.operands.specs.Parts.{format, field, masked_byte, whole};

use crate::base_record::BaseRecord;
use crate::operand::{Field, Format, MaskedByte};
use constants::OperandBytes;
use records::Layout;

pub fn field_of(bytes: OperandBytes, layouts: &[Layout; 8]) -> Option<Field>
    ensures { result ≡ field layouts.now bytes.p1 (bytes.p2 + 256 * bytes.p3) bytes.p4 }
{
    let from = BaseRecord::named_by(bytes.p1);
    let offset = offset_of(bytes);
    let format = format_of(bytes.p4 / 16)?;
    let length = bytes.p4 % 16;
    if !matches!(length, 1..=4) || !from.contains(layouts, offset, length) {
        return None;
    }
    Some(Field {
        from,
        offset,
        format,
        length,
    })
}

pub fn byte_of(bytes: OperandBytes, layouts: &[Layout; 8]) -> Option<MaskedByte>
    ensures { result ≡ masked_byte layouts.now bytes.p1 (bytes.p2 + 256 * bytes.p3) bytes.p4 }
{
    let from = BaseRecord::named_by(bytes.p1);
    let offset = offset_of(bytes);
    let mask = bytes.p4;
    from.contains(layouts, offset, 1)
        .then_some(MaskedByte { from, offset, mask })
}

pub fn whole_of(bytes: OperandBytes, layouts: &[Layout; 8]) -> Option<BaseRecord>
    ensures { result ≡ whole layouts.now bytes.p1 }
{
    let from = BaseRecord::named_by(bytes.p1);
    from.contains(layouts, 0, 0).then_some(from)
}

fn offset_of(bytes: OperandBytes) -> u16
    ensures { result ≡ bytes.p2 + 256 * bytes.p3 }
{
    u16::from_le_bytes([bytes.p2, bytes.p3])
}

// An operand that does not fit is just none, so a code that names no format has no error type.
fn format_of(code: u8) -> Option<Format>
    ensures { result ≡ format code }
{
    match code {
        0x0 => Some(Format::Bcd),
        0x4 => Some(Format::Unsigned),
        0xc => Some(Format::Signed),
        _ => None,
    }
}
