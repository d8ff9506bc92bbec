// The same table column after column, as a column page takes it. Bytes after the last whole row are left out.
ghost use Rattle.std.specs.Prelude.{◌≡◌, ◌<◌, ◌++◌, IfOk, OnOk};
ghost use Rattle.metering.specs.Transposes.{Transposes, all_columns, column_bytes};

use std::alloc::{AllocError, Global};

#[tactic(auto, using(crate::proofs::Turning::columns_more))]
pub fn columns(heap: Global, rows: &[u8], length: u16) -> Result<Vec<u8>, AllocError>
    ensures value { IfOk result (λ v. v.items ≡ all_columns rows.now length) }
    ensures transposed { IfOk result (λ v. Transposes rows.now length v.items) }
{
    let width = length as usize;
    let mut out = Vec::new(heap);
    for offset in 0..width {
        push_column(&mut out, rows, width, offset)?;
    }
    Ok(out)
}

// Adds the byte at an offset of every row.
fn push_column(
    out: &mut Vec<u8>,
    rows: &[u8],
    width: usize,
    offset: usize,
) -> Result<(), AllocError>
    requires { offset < width }
    ensures { OnOk result (out.new.items ≡ out.old.items ++ column_bytes rows.now width offset) }
{
    for row in rows.chunks_exact(width) {
        out.push(row[offset])?;
    }
    Ok(())
}
