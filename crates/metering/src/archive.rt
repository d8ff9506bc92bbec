// An archive as text: one record a line, and comments.
ghost use Rattle.std.specs.Prelude.{◌≡◌, ◌+◌, ◌*◌, ◌≤◌, length, OnOk, vec_len};
ghost use Rattle.metering.specs.Archives.{records_in, with_record, with_record_line, archive_of, IsWhole, IsEnough};
ghost use Rattle.metering.specs.Texts.{words, AsDefined};

use crate::fault::ArchiveFault;
use crate::hex::push_byte;
use crate::parts::{LineWords, TextLines};
use crate::reading::is_passed_over;
use std::alloc::Global;

// The records one after another, as a row page takes them.
#[derive(Drop)]
pub struct Archive {
    bytes: Vec<u8>,
    ghost whole: { IsWhole bytes.items },
    ghost enough: { IsEnough bytes.items },
}

impl Archive {
    pub const RECORD: u16 = 100;

    pub fn parse(heap: Global, text: &str) -> Result<Archive, ArchiveFault>
        ensures { AsDefined (archive_of text.now) (λ a. records_in a.bytes.items) result }
    {
        let mut bytes = Vec::new(heap);
        for (index, line) in TextLines::of(text).enumerate() {
            push_record_line(&mut bytes, line, index + 1)?;
        }
        let records = count(&bytes);
        if records < 2 {
            return Err(ArchiveFault::WrongCount(records));
        }
        Ok(Archive { bytes })
    }

    pub fn bytes(&self) -> &[u8]
        ensures { result.now ≡ self.now.bytes.items }
    {
        self.bytes.as_slice()
    }

    pub fn records(&self) -> u32
        ensures count { result ≡ (records_in self.now.bytes.items).records }
        ensures whole { result * 100 ≡ length self.now.bytes.items }
        ensures range { (2 ≤ result) × (result ≤ 65535) }
    {
        count(&self.bytes) as u32
    }
}

// How many records the bytes are.
fn count(bytes: &[u8]) -> usize
    ensures { result ≡ (records_in bytes.now).records }
{
    bytes.len() / Archive::RECORD as usize
}

// Adds the record of one line, unless that is passed over. Its number stays an argument, as in `push_line`.
fn push_record_line(bytes: &mut Vec<u8>, line: &[u8], number: usize) -> Result<(), ArchiveFault>
    requires { IsWhole bytes.old.items }
    ensures answer { AsDefined (with_record_line number (records_in bytes.old.items) line.now) (λ _. records_in bytes.new.items) result }
    ensures whole { OnOk result (IsWhole bytes.new.items) }
{
    if is_passed_over(line) {
        return Ok(());
    }
    if count(bytes) >= 65_535 {
        return Err(ArchiveFault::WrongCount(65_536));
    }
    push_record(bytes, line, number)
}

// Adds the bytes of one line, which must be exactly one record. Its number stays an argument, as in `push_line`.
fn push_record(bytes: &mut Vec<u8>, line: &[u8], number: usize) -> Result<(), ArchiveFault>
    ensures answer { AsDefined (with_record number 100 bytes.old.items (words line.now)) (λ _. bytes.new.items) result }
    ensures whole { OnOk result (vec_len bytes.new ≡ vec_len bytes.old + 100) }
{
    let mut words = LineWords::of(line);
    for _ in 0..Archive::RECORD {
        let Some(word) = words.next() else {
            return Err(ArchiveFault::WrongLength(number));
        };
        push_byte(bytes, word, number)?;
    }
    match words.next() {
        Some(_) => Err(ArchiveFault::WrongLength(number)),
        None => Ok(()),
    }
}
