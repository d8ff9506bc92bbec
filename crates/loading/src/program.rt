// A loaded program: its instructions, ready to run, in memory of a fixed size.
ghost use Rattle.std.specs.Prelude.{◌≡◌, [], None, slice_get};
ghost use Rattle.arrayvec.specs.ArrayVec.{array_vec_len};
ghost use Rattle.loading.specs.Verdicts.{verdict};
ghost use Rattle.loading.specs.Meaning.{Says};
ghost use Rattle.loading.specs.Trust.{TrustedImage};
ghost use Rattle.loading.specs.Decoded.{Decodes, Loaded};

use crate::encoded::Encoded;
use crate::image::{Image, WIDTH};
use crate::instruction::Instruction;
use crate::verdict::Verdict;
use arrayvec::ArrayVec;
use control::MOST_INSTRUCTIONS;
use records::Layout;

#[derive(Drop)]
pub struct Program {
    // None before a program is loaded.
    instructions: ArrayVec<Instruction, MOST_INSTRUCTIONS>,
    bound: Option<u32>,
}

impl Program {
    pub fn new() -> Program
        ensures empty { result.instructions.items ≡ [] }
        ensures unbound { result.bound ≡ None }
    {
        Program {
            instructions: ArrayVec::new(),
            bound: None,
        }
    }

    // Takes an accepted image in the place of the program before it; any other image changes nothing.
    #[tactic(auto, unfolding(crate::specs::Verdicts::verdict))]
    pub fn load(&mut self, image: &[u8], layouts: &[Layout; 8]) -> Verdict
        ensures value { result ≡ verdict layouts.now image.now }
        ensures says { Says layouts.now image.now result }
        ensures trusted { TrustedImage layouts.now image.now result }
        ensures loaded { Loaded layouts.now image.now self.old self.new result }
    {
        let image = Image::try_from(image)?;
        let bound = image.judge(layouts)?;
        image.decode(layouts, &mut self.instructions);
        self.bound = bound;
        Ok(bound)
    }

    pub fn count(&self) -> u16
        ensures { result ≡ array_vec_len self.now.instructions }
    {
        self.instructions.len() as u16
    }

    // The most steps that a cycle takes, where that is known.
    pub fn step_bound(&self) -> Option<u32>
        ensures { result ≡ self.now.bound }
    {
        self.bound
    }

    pub fn instructions(&self) -> &[Instruction]
        ensures { result.now ≡ self.now.instructions.items }
    {
        self.instructions.as_slice()
    }

    pub fn instruction(&self, n: u16) -> Option<Instruction>
        ensures { result ≡ slice_get self.now.instructions.items n }
    {
        self.instructions().get(usize::from(n)).copied()
    }
}

impl Image<'_> {
    // Decodes each instruction, in the place of what was there.
    fn decode(
        self,
        layouts: &[Layout; 8],
        instructions: &mut ArrayVec<Instruction, MOST_INSTRUCTIONS>,
    )
        ensures { Decodes layouts.now self.entry.bytes.now instructions.new.items }
    {
        instructions.clear();
        for bytes in self.bytes.chunks_exact(WIDTH) {
            instructions.push(Encoded::of(bytes).decode(layouts));
        }
    }
}
