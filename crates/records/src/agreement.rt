// Whether two sources mean the same, found by asking both for every byte.
ghost use Rattle.std.specs.Prelude.{◌↔◌, IsTrue};
ghost use Rattle.records.specs.Meaning.{Same, SameBase, Answers};

use crate::record::Record;
use crate::source::Source;

const BASES: u8 = 8;

pub fn agree<A: Source, B: Source>(a: &A, b: &B) -> bool
    ensures { IsTrue result ↔ Same (A.Source.meaning a.now) (B.Source.meaning b.now) }
{
    (0..BASES).all(|base| agree_on_base(a, b, base))
}

fn agree_on_base<A: Source, B: Source>(a: &A, b: &B, base: u8) -> bool
    ensures { IsTrue result ↔ SameBase (A.Source.meaning a.now) (B.Source.meaning b.now) base }
{
    let layout = a.layout(base);
    layout == b.layout(base)
        && agree_on_record(a, b, base, Record::Current, layout.length)
        && agree_on_record(a, b, base, Record::Previous, layout.length)
}

fn agree_on_record<A: Source, B: Source>(a: &A, b: &B, base: u8, which: Record, length: u16) -> bool
    ensures { IsTrue result ↔ Answers (A.Source.meaning a.now) (B.Source.meaning b.now) base which length }
{
    let same = |offset| a.byte(base, which, offset) == b.byte(base, which, offset);
    (0..usize::from(length)).all(same)
}
