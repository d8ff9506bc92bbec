// The one interface through which records are read.
ghost use Rattle.std.specs.Prelude.{◌≡◌};
ghost use Rattle.records.specs.Meaning.{Meaning, Lawful, byte_at};

use crate::layout::Layout;
use crate::record::Record;

// A source answers for eight bases, numbered from 0. What it means is a `Meaning`.
pub trait Source {
    ghost meaning: { Self → Meaning };

    fn layout(&self, base: u8) -> Layout
        ensures { result ≡ (meaning self.now).layout base };

    // Base and record stay two arguments: sources take them apart at once, and a layout is the base's alone.
    fn byte(&self, base: u8, which: Record, offset: usize) -> Option<u8>
        ensures { result ≡ byte_at (meaning self.now) base which offset };

    // What each implementation proves: its meaning is lawful.
    ghost keeps: { (s : Self) → Lawful (meaning s) };
}

// A lent source is a source.
impl<S: Source> Source for &S {
    ghost meaning = { λ s. S.Source.meaning s.now };

    fn layout(&self, base: u8) -> Layout {
        S::layout(*self, base)
    }

    fn byte(&self, base: u8, which: Record, offset: usize) -> Option<u8> {
        S::byte(*self, base, which, offset)
    }

    ghost keeps = { λ s. S.Source.keeps s.now };
}
