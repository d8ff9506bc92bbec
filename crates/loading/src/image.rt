// An image of a lawful length: 1 to 1,024 instructions of five bytes, an opcode and four operand bytes each.
ghost use Rattle.std.specs.Prelude.{◌≡◌, true};
ghost use Rattle.loading.specs.Images.{lawful_length, count};

use crate::error::LoadError;
use control::MOST_INSTRUCTIONS;

// The bytes of an instruction.
pub const WIDTH: usize = 5;

// The most bytes that an image has.
const LONGEST: usize = WIDTH * MOST_INSTRUCTIONS;

#[derive(Clone, Copy)]
pub struct Image<'a> {
    pub bytes: &'a [u8],
    ghost lawful: { lawful_length bytes.now ≡ true },
}

impl<'a> TryFrom<&'a [u8]> for Image<'a> {
    ghost use Rattle.std.specs.Prelude.{is_ok, IfOk, IfErr};
    ghost use Rattle.loading.specs.declared.error.LoadError.TheVariants.{BadLength};

    type Error = LoadError;

    ghost try_from_gives = { λ bytes r. (is_ok r ≡ lawful_length bytes.now) × IfOk r (λ image. image.bytes.now ≡ bytes.now) × IfErr r (λ e. e ≡ BadLength) };

    fn try_from(bytes: &'a [u8]) -> Result<Self, LoadError> {
        let length = bytes.len();
        if 1 <= length && length <= LONGEST && length % WIDTH == 0 {
            Ok(Image { bytes })
        } else {
            Err(LoadError::BadLength)
        }
    }
}

impl Image<'_> {
    pub fn count(self) -> usize
        ensures { result ≡ count self.entry.bytes.now }
    {
        self.bytes.len() / WIDTH
    }
}
