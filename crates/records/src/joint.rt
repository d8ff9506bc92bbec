// Two sources as one: current records from the first, previous ones from the second.
ghost use Rattle.std.specs.Prelude.{◌≡◌};
ghost use Rattle.records.specs.Meaning.{Same};
ghost use Rattle.records.specs.Joints.{joined, joined_lawful};

use crate::layout::Layout;
use crate::record::Record;
use crate::source::Source;

#[derive(Drop)]
pub struct Joint<C, P> {
    current: C,
    previous: P,
}

impl<C: Source, P: Source> Joint<C, P> {
    pub fn new(current: C, previous: P) -> Joint<C, P>
        ensures made { (result.current ≡ current) × (result.previous ≡ previous) }
        ensures itself { Same (C.Source.meaning current) (P.Source.meaning previous) → Same (joined (C.Source.meaning current) (P.Source.meaning previous)) (C.Source.meaning current) }
    {
        Joint { current, previous }
    }
}

impl<C: Source, P: Source> Source for Joint<C, P> {
    ghost meaning = { λ s. joined (C.Source.meaning s.current) (P.Source.meaning s.previous) };

    // A base whose two sides differ is absent.
    fn layout(&self, base: u8) -> Layout {
        let current = self.current.layout(base);
        let previous = self.previous.layout(base);
        if current == previous {
            current
        } else {
            Layout::ABSENT
        }
    }

    fn byte(&self, base: u8, which: Record, offset: usize) -> Option<u8> {
        if self.current.layout(base) != self.previous.layout(base) {
            return None;
        }
        match which {
            Record::Current => self.current.byte(base, which, offset),
            Record::Previous => self.previous.byte(base, which, offset),
        }
    }

    ghost keeps = { λ s. joined_lawful (C.Source.keeps s.current) (P.Source.keeps s.previous) };
}
