// Texts of hexadecimal bytes, line by line.
ghost use Rattle.std.specs.Prelude.{◌≡◌};
ghost use Rattle.metering.specs.Texts.{passed_over, with_line, bytes_of, AsDefined};

use crate::fault::ArchiveFault;
use crate::hex::push_byte;
use crate::parts::{LineWords, TextLines};
use std::alloc::Global;

// The bytes of a text that is no archive: any number of them in a line. Only the `for` over lines is that of `Archive::parse`, and a walk that
// takes what a line does would need a clause on it.
pub fn parse_bytes(heap: Global, text: &str) -> Result<Vec<u8>, ArchiveFault>
    ensures { AsDefined (bytes_of text.now) (λ v. v.items) result }
{
    let mut bytes = Vec::new(heap);
    for (index, line) in TextLines::of(text).enumerate() {
        push_line(&mut bytes, line, index + 1)?;
    }
    Ok(bytes)
}

// Adds the bytes of one line, unless that is passed over.
// A line and its number stay two arguments: the number is only handed on into a fault, and a struct would be taken apart in each loop.
fn push_line(bytes: &mut Vec<u8>, line: &[u8], number: usize) -> Result<(), ArchiveFault>
    ensures { AsDefined (with_line number bytes.old.items line.now) (λ _. bytes.new.items) result }
{
    if is_passed_over(line) {
        return Ok(());
    }
    for word in LineWords::of(line) {
        push_byte(bytes, word, number)?;
    }
    Ok(())
}

// Whether a line is passed over; its end may have a carriage return before the newline.
pub(crate) fn is_passed_over(line: &[u8]) -> bool
    ensures { result ≡ passed_over line.now }
{
    matches!(line, [b'\n', ..] | [b'\r', b'\n', ..] | [b'#', ..])
}
