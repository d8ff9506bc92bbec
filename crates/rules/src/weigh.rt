// The step bound of a text.
ghost use Rattle.std.specs.Prelude.{◌≡◌, ◌+◌, ◌≤◌, length};
ghost use Rattle.control.specs.Weights.{jumps_back, loops, weigh, weight, bound};
ghost use Rattle.rules.specs.Caps.{capped};

use crate::step::address_of;
use crate::text::{SLOTS, Text};
use control::Control;

// The largest bound that is told.
const LIMIT: u32 = 1_000_000;

impl Text<'_> {
    pub fn step_bound(self) -> Option<u32>
        ensures { result ≡ bound self.entry.kinds.now }
    {
        if self.has_loop() {
            return None;
        }
        let weight = self.start_weight();
        (weight <= LIMIT).then_some(weight)
    }

    // Whether some jump does not go forward.
    fn has_loop(self) -> bool
        ensures { result ≡ loops self.entry.kinds.now (length self.entry.kinds.now) }
    {
        self.kinds
            .iter()
            .enumerate()
            .any(|(number, &kind)| goes_back(number, kind))
    }

    // The weight of instruction 0; above the limit, one more than the limit. Weights can grow past 32 bits, so each is capped as soon
    // as it is made.
    fn start_weight(self) -> u32
        ensures { result ≡ capped (weight self.entry.kinds.now 0) }
    {
        let mut weights = [0u32; SLOTS];
        let mut next = 0u32;
        for (i, &kind) in self.kinds.iter().enumerate().rev() {
            // An address that is not ahead counts as the next instruction: such a text has no bound, or breaks a rule.
            let target = weights[(address_of(kind) as usize).max(i + 1)];
            next = capped_weight(kind, target, next);
            weights[i] = next;
        }
        next
    }
}

fn goes_back(number: usize, kind: Control) -> bool
    ensures { result ≡ jumps_back number kind }
{
    match kind {
        Control::JumpIf(target) | Control::Jump(target) => target as usize <= number,
        _ => false,
    }
}

fn capped_weight(kind: Control, target: u32, next: u32) -> u32
    requires low { target ≤ LIMIT + 1 }
    requires near { next ≤ LIMIT + 1 }
    ensures { result ≡ capped (weigh kind target next) }
{
    let weight = match kind {
        Control::Return | Control::End => 1,
        Control::Jump(_) => 1 + target,
        Control::JumpIf(_) => 1 + target.max(next),
        Control::Call(_) => 1 + target + next,
        _ => 1 + next,
    };
    weight.min(LIMIT + 1)
}
