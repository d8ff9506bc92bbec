// The judgment on a text.
ghost use Rattle.std.specs.Prelude.{◌≡◌, length};
ghost use Rattle.control.specs.Rules.{first_broken};
ghost use Rattle.control.specs.Weights.{bound};
ghost use Rattle.rules.specs.Judgments.{judgment, told, Says, Trusted};

use crate::error::TextError;
use crate::text::Text;
use control::Control;

// The step bound, if there is one, of a text that keeps the rules.
pub type Judgment = Result<Option<u32>, TextError>;

pub fn judge_text(text: &[Control]) -> Judgment
    ensures value { result ≡ judgment text.now }
    ensures says { Says text.now result }
    ensures trusted { Trusted text.now result }
{
    Text::try_from(text)?.judge()
}

impl Text<'_> {
    fn judge(self) -> Judgment
        ensures { result ≡ told (first_broken self.entry.kinds.now (length self.entry.kinds.now)) (bound self.entry.kinds.now) }
    {
        match self.first_broken() {
            Some((code, number)) => Err(TextError::Breaks(code, number)),
            None => Ok(self.step_bound()),
        }
    }
}
