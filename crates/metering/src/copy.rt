// A whole record, copied from a source.
ghost use Rattle.std.specs.Prelude.{◌≡◌, IfOk};

use records::{Record, Source};
use std::alloc::{AllocError, Global};

pub fn copy_record<S: Source>(
    heap: Global,
    source: &S,
    base: u8,
    which: Record,
) -> Result<Vec<u8>, AllocError>
    ensures { IfOk result (λ v. v.items ≡ (S.Source.meaning source.now).bytes base which) }
{
    let mut bytes = Vec::new(heap);
    while let Some(byte) = source.byte(base, which, bytes.len()) {
        bytes.push(byte)?;
    }
    Ok(bytes)
}
