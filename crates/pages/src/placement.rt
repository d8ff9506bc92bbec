// Where a base's rows lie in a page's bytes, and which row is the current one.
ghost use Rattle.std.specs.Prelude.{◌≡◌};

use records::{Layout, Record};

// A table of `rows` rows of the layout's length, whose bytes begin at `start`.
#[derive(Clone, Copy, Debug, PartialEq, Eq)]
pub struct Placement {
    pub layout: Layout,
    pub start: usize,
    pub rows: u32,
    pub row: u32,
}

impl Placement {
    ghost use Rattle.pages.specs.Placements.{fits};
    ghost use Rattle.pages.specs.Pages.{row_number};

    pub const MOST_ROWS: u32 = 65_535;

    // Of a base that is absent. No Option: a placement with an unlawful layout can be handed in, and is refused.
    pub const NOWHERE: Placement = Placement {
        layout: Layout::ABSENT,
        start: 0,
        rows: 0,
        row: 0,
    };

    // Whether a page of so many bytes can hold it.
    pub fn fits(&self, capacity: usize) -> bool
        ensures { result ≡ fits capacity self.now }
    {
        if !self.layout.is_lawful() {
            return false;
        }
        if self.rows < 2
            || self.rows > Placement::MOST_ROWS
            || self.row < 1
            || self.row >= self.rows
        {
            return false;
        }
        let size = self.rows as usize * self.layout.length as usize;
        size <= capacity && self.start <= capacity - size
    }

    // The row that is the current record, or the one before it.
    pub fn row_of(&self, which: Record) -> u32
        ensures { result ≡ row_number self.now which }
    {
        match which {
            Record::Current => self.row,
            Record::Previous => self.row.saturating_sub(1),
        }
    }
}
