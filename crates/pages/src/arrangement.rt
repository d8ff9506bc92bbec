// How the rows of a table lie in a page's bytes: row after row, or column after column.
ghost use Rattle.std.specs.Prelude.{◌≡◌, ℕ, ◌%◌, ◌^◌, List, refl};
ghost use Rattle.pages.specs.declared.placement.Placement.{Placement};
ghost use Rattle.pages.specs.Pages.{by_rows, by_columns};
ghost use Rattle.pages.specs.Tables.{row_after_row, column_after_column};
ghost use Rattle.pages.specs.Arrangements.{Steady, KeepsInside, Reads};
ghost use Rattle.pages.specs.Laws.{rows_inside, columns_inside, rows_read, columns_read};

use crate::placement::Placement;

pub trait Arrangement {
    // Where byte `offset` of row `row` lies.
    ghost address: { Placement → ℕ → ℕ → ℕ };

    // A table of rows of one length, written out in this way.
    ghost written: { ℕ → List (List ℕ) → List ℕ };

    // It wraps at numbers past those of a page, so that it answers for all.
    fn address(at: &Placement, row: usize, offset: usize) -> usize
        ensures { result ≡ address at.now row offset % 2 ^ 64 };

    // Turning to another row moves no byte.
    ghost steady: { Steady address };

    // The bytes of a placement that fits lie inside the page.
    ghost inside: { KeepsInside address };

    // The rows of a table that is so written are read back.
    ghost reads: { Reads address written };
}

// Rows lie one after another.
#[derive(Clone, Copy, Debug, PartialEq, Eq)]
pub struct ByRows;

impl Arrangement for ByRows {
    ghost address = { by_rows };

    ghost written = { row_after_row };

    fn address(at: &Placement, row: usize, offset: usize) -> usize {
        at.start
            .wrapping_add(row.wrapping_mul(usize::from(at.layout.length)))
            .wrapping_add(offset)
    }

    ghost steady = { λ p r k o. refl };

    ghost inside = { rows_inside };

    ghost reads = { rows_read };
}

// Columns lie one after another.
#[derive(Clone, Copy, Debug, PartialEq, Eq)]
pub struct ByColumns;

impl Arrangement for ByColumns {
    ghost address = { by_columns };

    ghost written = { column_after_column };

    fn address(at: &Placement, row: usize, offset: usize) -> usize {
        at.start
            .wrapping_add(offset.wrapping_mul(at.rows as usize))
            .wrapping_add(row)
    }

    ghost steady = { λ p r k o. refl };

    ghost inside = { columns_inside };

    ghost reads = { columns_read };
}
