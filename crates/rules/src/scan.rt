// The first instruction of a text that breaks a rule.
ghost use Rattle.std.specs.Prelude.{◌≡◌, length};
ghost use Rattle.control.specs.Rules.{first_broken};

use crate::check::check;
use crate::step::address_of;
use crate::text::Text;
use control::{LoadingCode, MOST_INSTRUCTIONS, Place};

impl Text<'_> {
    // An Option of a pair, as the definition `first_broken` is: which rule is broken and where, if any. Nothing hands it on by `?`, and `judge`
    // takes the pair apart at once.
    pub fn first_broken(self) -> Option<(LoadingCode, u16)>
        ensures { result ≡ first_broken self.entry.kinds.now (length self.entry.kinds.now) }
    {
        let mut places = [Place::default(); MOST_INSTRUCTIONS];
        self.fill_places(&mut places);
        for (&kind, &place) in self.kinds.iter().zip(&places) {
            let target = places[address_of(kind) as usize];
            if let Some(code) = check(kind, place, target) {
                return Some((code, place.number));
            }
        }
        None
    }
}
