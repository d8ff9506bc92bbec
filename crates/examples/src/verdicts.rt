// What loading says of the example images.
ghost use Rattle.std.specs.Prelude.{◌≡◌, [], ◌∷◌, Some, Ok, Err};
ghost use Rattle.control.specs.declared.code.LoadingCode.TheVariants.{PushAtEight};
ghost use Rattle.loading.specs.declared.error.LoadError.TheVariants.{Breaks};
ghost use Rattle.loading.specs.Examples.{Examples};

use loading::{Verdict, judge_image};
use records::Layout;

const ABSENT: [Layout; 8] = [Layout::ABSENT; 8];

// A call of 2, END, a return.
const CALL_AND_RETURN: &[u8] = b"\x3a\x02\0\0\0\xff\0\0\0\0\x3b\0\0\0\0";

// Pushes of event bit 0, and END. Both images are written out, so that a reader sees the bytes that get the answer.
const EIGHT_PUSHES: &[u8] = b"\
    \x0b\0\0\0\0\x0b\0\0\0\0\x0b\0\0\0\0\x0b\0\0\0\0\
    \x0b\0\0\0\0\x0b\0\0\0\0\x0b\0\0\0\0\x0b\0\0\0\0\
    \xff\0\0\0\0";

const NINE_PUSHES: &[u8] = b"\
    \x0b\0\0\0\0\x0b\0\0\0\0\x0b\0\0\0\0\x0b\0\0\0\0\
    \x0b\0\0\0\0\x0b\0\0\0\0\x0b\0\0\0\0\x0b\0\0\0\0\
    \x0b\0\0\0\0\xff\0\0\0\0";

pub fn example_verdicts() -> [Verdict; 3]
    ensures examples { Examples }
    ensures verdicts { result ≡ (Ok (Some 3) ∷ Ok (Some 9) ∷ Err (Breaks PushAtEight 8) ∷ []) }
{
    [
        judge_image(CALL_AND_RETURN, &ABSENT),
        judge_image(EIGHT_PUSHES, &ABSENT),
        judge_image(NINE_PUSHES, &ABSENT),
    ]
}
