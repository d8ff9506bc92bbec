// The exponent of a constant: a power of ten.
ghost use Rattle.std.specs.Prelude.{◌≡◌, true};
ghost use Rattle.constants.specs.Constants.{scaled};
ghost use Rattle.constants.specs.Exponents.{exponent_lawful};

use crate::powers::power_of_ten;

#[derive(Clone, Copy, Debug, PartialEq, Eq)]
pub enum Exponent {
    Plus(u8),
    Minus(u8),
}

impl Exponent {
    pub fn is_lawful(self) -> bool
        ensures { result ≡ exponent_lawful self }
    {
        match self {
            Exponent::Plus(size) => size <= 27,
            Exponent::Minus(size) => size <= 17,
        }
    }

    // The whole number of the digits, times ten to the exponent less five. It is rounded once.
    pub fn scale(self, number: u32) -> f64
        requires { exponent_lawful self ≡ true }
        ensures { result ≡ scaled number self }
    {
        let number = f64::from(number);
        match self {
            Exponent::Plus(size) if size >= 5 => number * power_of_ten(usize::from(size) - 5),
            Exponent::Plus(size) => number / power_of_ten(5 - usize::from(size)),
            Exponent::Minus(size) => number / power_of_ten(5 + usize::from(size)),
        }
    }
}
