// The four bytes of an operand, and the constant that they stand for.
ghost use Rattle.std.specs.Prelude.{◌≡◌, true};
ghost use Rattle.std.specs.Bool.{then_some};
ghost use Rattle.constants.specs.Cleanness.{GivesClean};
ghost use Rattle.constants.specs.Constants.{lawful, negative, nonzero, value};
ghost use Rattle.constants.specs.Decimals.{RoundedOnce};
ghost use Rattle.constants.specs.Digits.{digits_lawful, whole_number};
ghost use Rattle.constants.specs.Exponents.{exponent, exponent_lawful};

use crate::exponent::Exponent;

#[derive(Clone, Copy, Debug, PartialEq, Eq)]
pub struct OperandBytes {
    pub p1: u8,
    pub p2: u8,
    pub p3: u8,
    pub p4: u8,
}

impl OperandBytes {
    // The number that the bytes stand for, or None if they stand for none. A last byte of 0 makes it zero, whatever the others are.
    // Inlined, with `nonzero`, since a call would hand the bytes over packed together, to be taken apart again.
    #[inline(always)]
    pub fn constant(self) -> Option<f64>
        ensures answer { result ≡ value self.p1 self.p2 self.p3 self.p4 }
        ensures decimal { lawful self.p1 self.p2 self.p3 self.p4 ≡ true
            → RoundedOnce self.p1 self.p2 self.p3 self.p4 result }
        ensures finite { GivesClean result }
    {
        if self.p4 == 0 {
            Some(0.0)
        } else {
            self.nonzero()
        }
    }

    #[inline(always)]
    fn nonzero(self) -> Option<f64>
        ensures { result ≡ nonzero self.p1 self.p2 self.p3 self.p4 }
    {
        let number = self.whole_number()?;
        let exponent = self.exponent()?;
        let size = exponent.scale(number);
        Some(if self.is_negative() { -size } else { size })
    }

    fn is_negative(self) -> bool
        ensures { result ≡ negative self.p1 }
    {
        self.p1 % 2 == 1
    }

    // The whole number that the five digits make, if each is a decimal digit and the first is not 0.
    fn whole_number(self) -> Option<u32>
        ensures { result
            ≡ then_some (digits_lawful self.p2 self.p3 self.p4) (whole_number self.p2 self.p3 self.p4) }
    {
        let d1 = u32::from(self.p4 / 16);
        let (d2, d3) = (u32::from(self.p3 / 16), u32::from(self.p3 % 16));
        let (d4, d5) = (u32::from(self.p2 / 16), u32::from(self.p2 % 16));
        let lawful = matches!(d1, 1..=9) && d2 <= 9 && d3 <= 9 && d4 <= 9 && d5 <= 9;
        lawful.then_some(10000 * d1 + 1000 * d2 + 100 * d3 + 10 * d4 + d5)
    }

    fn exponent(self) -> Option<Exponent>
        ensures { result ≡ then_some (exponent_lawful (exponent self.p1 self.p4)) (exponent self.p1 self.p4) }
    {
        let size = self.p4 % 16 + 16 * (self.p1 / 4 % 4);
        let exponent = if self.p1 / 2 % 2 == 1 {
            Exponent::Minus(size)
        } else {
            Exponent::Plus(size)
        };
        exponent.is_lawful().then_some(exponent)
    }
}
