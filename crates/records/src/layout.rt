// The layout of a base: how long its records are.
ghost use Rattle.std.specs.Prelude.{◌≡◌, ◌==◌};
ghost use Rattle.records.specs.Layouts.{lawful};

// A length of 0 stands for an absent base. Any other number can be written down too, and is judged by `is_lawful`: no Option, since callers
// hand in unlawful layouts and are told so.
#[derive(Clone, Copy, PartialEq, Eq, Debug)]
pub struct Layout {
    pub length: u16,
}

impl Layout {
    pub const ABSENT: Layout = Layout { length: 0 };

    pub const LONGEST: u16 = 512;

    pub fn is_lawful(&self) -> bool
        ensures { result ≡ lawful self.now }
    {
        1 <= self.length && self.length <= Layout::LONGEST
    }

    pub fn is_absent(&self) -> bool
        ensures { result ≡ (self.now.length == 0) }
    {
        self.length == 0
    }
}
