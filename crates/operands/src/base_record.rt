// One of the two records of a base.
ghost use Rattle.std.specs.Prelude.{◌≡◌, ◌<◌};
ghost use Rattle.operands.specs.Parts.{base_record, inside};

use records::{Layout, Record};

#[derive(Clone, Copy, Debug, PartialEq, Eq)]
pub struct BaseRecord {
    pub base: u8,
    pub which: Record,
}

impl BaseRecord {
    // First bytes come in eights, one for each base: current, then previous.
    pub(crate) fn named_by(first: u8) -> BaseRecord
        ensures { result ≡ base_record first }
    {
        let which = if first / 8 % 2 == 0 {
            Record::Current
        } else {
            Record::Previous
        };
        BaseRecord {
            base: first % 8,
            which,
        }
    }

    // Whether the base is present, and so many bytes from an offset on lie inside its records.
    pub(crate) fn contains(self, layouts: &[Layout; 8], offset: u16, count: u8) -> bool
        requires { self.base < 8 }
        ensures { result ≡ inside layouts.now self.base offset count }
    {
        let layout = layouts[usize::from(self.base)];
        !layout.is_absent() && u32::from(offset) + u32::from(count) <= u32::from(layout.length)
    }
}
