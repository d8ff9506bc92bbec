// A control text that can be judged: 1 to 1,024 instructions, whose addresses are all its own.
ghost use Rattle.std.specs.Prelude.{◌<◌, ◌≤◌, length};
ghost use Rattle.control.specs.Rules.{Inside};

use crate::error::TextError;
use crate::step::address_of;
use control::{Control, MOST_INSTRUCTIONS};

// A slot for each address, and one past the last.
pub const SLOTS: usize = MOST_INSTRUCTIONS + 1;

#[derive(Clone, Copy)]
pub struct Text<'a> {
    pub kinds: &'a [Control],
    ghost some: { 0 < length kinds.now },
    ghost few: { length kinds.now ≤ 1024 },
    ghost inside: { Inside kinds.now },
}

impl<'a> TryFrom<&'a [Control]> for Text<'a> {
    ghost use Rattle.std.specs.Prelude.{◌≡◌, is_ok, IfOk, IfErr};
    ghost use Rattle.rules.specs.Judgments.{formed};
    ghost use Rattle.rules.specs.declared.error.TextError.TheVariants.{Malformed};

    type Error = TextError;

    ghost try_from_gives = { λ kinds r. (is_ok r ≡ formed kinds.now) × IfOk r (λ text. text.kinds.now ≡ kinds.now) × IfErr r (λ e. e ≡ Malformed) };

    fn try_from(kinds: &'a [Control]) -> Result<Self, TextError> {
        let count = kinds.len();
        if count == 0 || count > MOST_INSTRUCTIONS {
            return Err(TextError::Malformed);
        }
        let inside = |&kind: &Control| (address_of(kind) as usize) < count;
        if kinds.iter().all(inside) {
            Ok(Text { kinds })
        } else {
            Err(TextError::Malformed)
        }
    }
}
