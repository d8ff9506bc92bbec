// The rules at one instruction.
ghost use Rattle.std.specs.Prelude.{◌≡◌};
ghost use Rattle.control.specs.Rules.{first_of, checks};

use crate::step::GROUND;
use control::{Control, LoadingCode, Place};

// The first rule that an instruction breaks, in the order in which they are told, with the place of its address.
// An Option, as `first_of` is: it answers which rule is broken, if any, and nothing hands that on by `?`.
pub fn check(kind: Control, place: Place, target: Place) -> Option<LoadingCode>
    ensures { result ≡ first_of (checks kind place target.depth target.section) }
{
    match kind {
        Control::Push if place.depth == GROUND + 8 => Some(LoadingCode::PushAtEight),
        Control::Pop if place.depth == GROUND => Some(LoadingCode::PopAtZero),
        Control::JumpIf(_) | Control::Jump(_) if target.depth != place.depth => {
            Some(LoadingCode::DepthDiffers)
        }
        Control::JumpIf(_) | Control::Jump(_) if target.section != place.section => {
            Some(LoadingCode::LeavesSection)
        }
        Control::Call(_) if place.depth != GROUND || target.depth != GROUND => {
            Some(LoadingCode::DepthDiffers)
        }
        Control::Return if place.depth != GROUND => Some(LoadingCode::DepthDiffers),
        Control::Return if place.section == 0 => Some(LoadingCode::ReturnOutside),
        Control::Jump(_) | Control::Return | Control::End => None,
        // The others go on with the next instruction, which must be of the same section.
        _ if place.last => Some(LoadingCode::SectionRunsOn),
        Control::Call(address) if address <= place.number => Some(LoadingCode::CallsBack),
        Control::Call(_) if place.rank == 8 => Some(LoadingCode::CallTooDeep),
        _ => None,
    }
}
