// A page: eight bases over a caller's bytes, each a table that lies there in the page's arrangement.
ghost use Rattle.std.specs.Prelude.{◌≡◌, ℕ, length};
ghost use Rattle.pages.specs.Placements.{nowhere, placement};
ghost use Rattle.pages.specs.Pages.{page, page_lawful, AllHeld};
ghost use Rattle.pages.specs.Tables.{Alike};
ghost use Rattle.pages.specs.Changes.{Placing, Turning};

use crate::arrangement::{Arrangement, ByColumns, ByRows};
use crate::placement::Placement;
use crate::refusal::Refusal;
use records::{Layout, Record, Source};
use std::marker::PhantomData;

#[derive(Drop)]
pub struct Page<'a, A> {
    bytes: &'a [u8],
    bases: [Placement; 8],
    arrangement: PhantomData<A>,
    ghost eight: { length bases ≡ 8 },
    ghost held: { AllHeld (length bytes.now) bases },
}

// Byte o of row k is found at start + k * length + o.
pub type RowPage<'a> = Page<'a, ByRows>;

// Byte o of row k is found at start + o * rows + k.
pub type ColumnPage<'a> = Page<'a, ByColumns>;

impl<'a, A: Arrangement> Page<'a, A> {
    // Eight absent bases over the caller's bytes.
    pub fn new(bytes: &'a [u8]) -> Page<'a, A>
        ensures bytes { result.bytes.now ≡ bytes.now }
        ensures absent { (b : ℕ) → placement result.bases b ≡ nowhere }
    {
        Page {
            bytes,
            bases: [Placement::NOWHERE; 8],
            arrangement: PhantomData,
        }
    }

    // Gives a base a layout and its records, in the place of what it had.
    pub fn place(&mut self, base: u8, at: Placement) -> Result<(), Refusal>
        ensures bytes { self.new.bytes.now ≡ self.old.bytes.now }
        ensures placing { Placing A.address A.written self.old.bytes.now self.old.bases self.new.bases base at result }
        ensures transposed { Alike A.address A.written self.old.bytes.now self.new.bases }
    {
        // All conditions of the one refusal stand together, here and in `turn`; `get_mut` would have the base apart from the others.
        if base > 7 || !at.fits(self.bytes.len()) {
            return Err(Refusal::BadPlacement);
        }
        self.bases[base as usize] = at;
        Ok(())
    }

    // Makes another row of a base the current one.
    #[tactic(auto, using(crate::proofs::Changing::held_turned))]
    pub fn turn(&mut self, base: u8, row: u32) -> Result<(), Refusal>
        ensures bytes { self.new.bytes.now ≡ self.old.bytes.now }
        ensures turning { Turning A.address A.written self.old.bytes.now self.old.bases self.new.bases base row result }
        ensures transposed { Alike A.address A.written self.old.bytes.now self.new.bases }
    {
        let old = self.placement(base);
        if base > 7 || old.layout.is_absent() || row < 1 || row >= old.rows {
            return Err(Refusal::BadPlacement);
        }
        self.bases[base as usize] = Placement { row, ..old };
        Ok(())
    }

    // A base above 7 is nowhere.
    fn placement(&self, base: u8) -> Placement
        ensures { result ≡ placement self.now.bases base }
    {
        self.bases
            .get(base as usize)
            .copied()
            .unwrap_or(Placement::NOWHERE)
    }
}

impl<A: Arrangement> Source for Page<'_, A> {
    ghost meaning = { λ s. page A.address s.bytes.now s.bases };

    fn layout(&self, base: u8) -> Layout {
        self.placement(base).layout
    }

    fn byte(&self, base: u8, which: Record, offset: usize) -> Option<u8> {
        let at = self.placement(base);
        if offset >= at.layout.length as usize {
            return None;
        }
        let row = at.row_of(which) as usize;
        Some(self.bytes[A::address(&at, row, offset)])
    }

    ghost keeps = { λ s. page_lawful A.address s.bytes.now s.bases s.eight s.held };
}
