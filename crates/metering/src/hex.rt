// Bytes as two hexadecimal digits.
ghost use Rattle.std.specs.Prelude.{◌≡◌, ◌+◌, ◌<◌, IfSome, OnOk, vec_len};
ghost use Rattle.metering.specs.Texts.{hex_digit, byte_of, with_byte, AsDefined};

use crate::fault::ArchiveFault;

// Adds the byte of one word, which stands in the line of that number (an argument, as in `push_line`).
pub(crate) fn push_byte(bytes: &mut Vec<u8>, word: &[u8], number: usize) -> Result<(), ArchiveFault>
    ensures answer { AsDefined (with_byte number bytes.old.items (byte_of word.now)) (λ _. bytes.new.items) result }
    ensures one { OnOk result (vec_len bytes.new ≡ vec_len bytes.old + 1) }
{
    let byte = hex_byte(word).ok_or(ArchiveFault::NotAByte(number))?;
    bytes.push(byte)?;
    Ok(())
}

fn hex_byte(word: &[u8]) -> Option<u8>
    ensures { result ≡ byte_of word.now }
{
    let &[high, low] = word else {
        return None;
    };
    Some(hex_digit(high)? * 16 + hex_digit(low)?)
}

fn hex_digit(digit: u8) -> Option<u8>
    ensures value { result ≡ hex_digit digit }
    ensures small { IfSome result (λ d. d < 16) }
{
    let value = (digit as char).to_digit(16)?;
    Some(value as u8)
}
