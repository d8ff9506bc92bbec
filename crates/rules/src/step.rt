// What one instruction does to the bit stack, and the instruction that it names.
ghost use Rattle.std.specs.Prelude.{◌≡◌, ◌<◌};
ghost use Rattle.control.specs.Texts.{stacked};
ghost use Rattle.control.specs.Rules.{address};

use control::{Control, MOST_INSTRUCTIONS};

// Depths are counted from here, so that none falls below 0.
pub const GROUND: u16 = MOST_INSTRUCTIONS as u16;

// A function of this crate, as are `stack` and `goes_back`: a method of `Control` would promise it to everybody.
// No address is 0, as the definition `address` has it: every text has an instruction 0, so callers look up a place in any case.
pub fn address_of(kind: Control) -> u16
    ensures { result ≡ address kind }
{
    match kind {
        Control::JumpIf(target) | Control::Jump(target) | Control::Call(target) => target,
        _ => 0,
    }
}

// The depth after an instruction.
pub fn stack(kind: Control, depth: u16) -> u16
    requires { depth < 65535 }
    ensures { result ≡ stacked kind depth }
{
    match kind {
        Control::Push => depth + 1,
        Control::Pop => depth.saturating_sub(1),
        _ => depth,
    }
}
