// The verdict on an image.
ghost use Rattle.std.specs.Prelude.{◌≡◌, [], MatchResult};
ghost use Rattle.loading.specs.Verdicts.{verdict, Passes, FailsAlone};
ghost use Rattle.loading.specs.Meaning.{Says};
ghost use Rattle.loading.specs.Examples.{Examples};
ghost use Rattle.loading.specs.Trust.{TrustedImage};

use crate::encoded::Encoded;
use crate::error::LoadError;
use crate::image::{Image, WIDTH};
use arrayvec::ArrayVec;
use control::{Control, MOST_INSTRUCTIONS};
use records::Layout;
use rules::judge_text;

// The program can be run, and the most steps that a cycle takes, where that is known; or why it is refused.
pub type Verdict = Result<Option<u32>, LoadError>;

// Image and layouts stay two arguments: nobody keeps them together, and a struct of them would only be taken apart.
#[tactic(auto, using(crate::proofs::Worked::examples), unfolding(crate::specs::Verdicts::verdict))]
pub fn judge_image(image: &[u8], layouts: &[Layout; 8]) -> Verdict
    ensures value { result ≡ verdict layouts.now image.now }
    ensures says { Says layouts.now image.now result }
    ensures trusted { TrustedImage layouts.now image.now result }
    ensures examples { Examples }
{
    Image::try_from(image)?.judge(layouts)
}

impl Image<'_> {
    // The instructions by themselves, in the order of their numbers, and then the text that they make. The clauses are those of the two public
    // calls, which keep theirs.
    pub fn judge(self, layouts: &[Layout; 8]) -> Verdict
        ensures value { result ≡ verdict layouts.now self.entry.bytes.now }
        ensures says { Says layouts.now self.entry.bytes.now result }
        ensures trusted { TrustedImage layouts.now self.entry.bytes.now result }
    {
        let mut kinds = ArrayVec::new();
        self.fill_text(layouts, &mut kinds)?;
        Ok(judge_text(kinds.as_slice())?)
    }

    // Notes what each instruction does to the flow of control, up to the first that breaks a rule by itself. The text is lent to it: one that is
    // handed back in a Result is copied whole, however short.
    fn fill_text(
        self,
        layouts: &[Layout; 8],
        kinds: &mut ArrayVec<Control, MOST_INSTRUCTIONS>,
    ) -> Result<(), LoadError>
        requires { kinds.old.items ≡ [] }
        ensures { MatchResult result (λ _. Passes layouts.now self.entry.bytes.now kinds.new) (FailsAlone layouts.now self.entry.bytes.now) }
    {
        let count = self.count();
        for bytes in self.bytes.chunks_exact(WIDTH) {
            let number = kinds.len() as u16;
            let kind = Encoded::of(bytes)
                .check(layouts, count)
                .map_err(|code| LoadError::Breaks(code, number))?;
            kinds.push(kind);
        }
        Ok(())
    }
}
