// Where each instruction of a text stands.
ghost use Rattle.std.specs.Prelude.{◌≡◌, ℕ, ◌+◌, ◌<◌, max, ◌||◌, ◌==◌, length, is_some, unwrap_or, if◌then◌else◌, slice_index_or};
ghost use Rattle.std.specs.Option.{option_map};
ghost use Rattle.std.specs.Bool.{then_some};
ghost use Rattle.control.specs.Texts.{stacked, calls, called};
ghost use Rattle.control.specs.Rules.{address};
ghost use Rattle.rules.specs.Maps.{Mapped};

use crate::step::{GROUND, stack};
use crate::text::{SLOTS, Text};
use control::{Control, MOST_INSTRUCTIONS, Place};

// For each address that is called, the rank that the calls so far ask of its section.
type Asked = [Option<u16>; SLOTS];

impl Text<'_> {
    // In the order of the text, with what the calls on the way ask of later sections.
    // Like the other tables here it is fixed memory, for this layer has no heap, and is looked up by address. Tables are lent to what fills
    // them: one that is handed back is copied whole, however short the text.
    pub fn fill_places(self, places: &mut [Place; MOST_INSTRUCTIONS])
        ensures { Mapped self.entry.kinds.now places.new }
    {
        let mut asked = [None; SLOTS];
        self.fill_called(&mut asked);
        let mut place = Place {
            depth: GROUND,
            ..Place::default()
        };
        for (n, &kind) in self.kinds.iter().enumerate() {
            let last = self.is_last(n, &asked);
            places[n] = Place { last, ..place };
            ask(&mut asked, kind, place.rank);
            place = after(place, kind, asked[n + 1]);
        }
    }

    // Each section that is called has at least rank 1.
    fn fill_called(self, asked: &mut Asked)
        requires { (s : ℕ) → s < SLOTS → slice_index_or asked.old s None ≡ None }
        ensures { (s : ℕ) → s < SLOTS → slice_index_or asked.new s None ≡ then_some (called self.entry.kinds.now s) 1 }
    {
        for &kind in self.kinds {
            if let Control::Call(target) = kind {
                asked[target as usize] = Some(1);
            }
        }
    }

    // Whether an instruction is the last of its section.
    fn is_last(self, n: usize, asked: &Asked) -> bool
        requires { n < length self.kinds.now }
        ensures { result ≡ (is_some (slice_index_or asked.now (n + 1) None) || n + 1 == length self.entry.kinds.now) }
    {
        asked[n + 1].is_some() || n + 1 == self.kinds.len()
    }
}

// A call asks of its target's section a rank above its own.
fn ask(asked: &mut Asked, kind: Control, rank: u16)
    requires inside { address kind < MOST_INSTRUCTIONS }
    requires low { rank < 65535 }
    ensures { (s : ℕ) → s < SLOTS → slice_index_or asked.new s None ≡ (if calls kind s then option_map (λ r. max r (1 + rank)) (slice_index_or asked.old s None) else slice_index_or asked.old s None) }
{
    if let Control::Call(target) = kind {
        let before = asked[target as usize];
        asked[target as usize] = before.map(|before| before.max(1 + rank));
    }
}

// Where the next instruction stands, with the rank of the section that begins there, if one does.
fn after(place: Place, kind: Control, begins: Option<u16>) -> Place
    requires few { place.number < 65535 }
    requires low { place.depth < 65535 }
    ensures number { result.number ≡ place.number + 1 }
    ensures depth { result.depth ≡ stacked kind place.depth }
    ensures section { result.section ≡ (if is_some begins then place.number + 1 else place.section) }
    ensures rank { result.rank ≡ unwrap_or begins place.rank }
{
    let next = Place {
        number: place.number + 1,
        depth: stack(kind, place.depth),
        ..place
    };
    match begins {
        Some(rank) => Place {
            section: next.number,
            rank,
            ..next
        },
        None => next,
    }
}
