// What a metering record says: whether its check sum holds, and the balance meter's total.
ghost use Rattle.std.specs.Prelude.{◌≡◌, Some};
ghost use Rattle.metering.specs.Totals.{sum_holds, pair, total_of, growth_of, hundredths, growth_text};

use std::fmt;

// How a total moved from the previous record to the current one, in hundredths of a kilowatt-hour.
#[derive(Clone, Copy, PartialEq, Eq, Debug)]
pub enum Growth {
    Rise(u32),
    Fall(u32),
}

// Where the balance meter's total begins.
const TOTAL: usize = 95;

// Whether the last byte is the sum of the others modulo 256.
#[tactic(auto, using(crate::proofs::Summing::wrapped_sum))]
pub fn check_sum_holds(bytes: &[u8]) -> bool
    ensures { result ≡ sum_holds bytes.now }
{
    let [rest @ .., last] = bytes else {
        return false;
    };
    let sum = rest.iter().fold(0u8, |sum, byte| sum.wrapping_add(*byte));
    sum == *last
}

// The total energy: four bytes of two decimal digits, low byte first; `None` where a digit is above 9.
pub fn total(bytes: &[u8]) -> Option<u32>
    ensures { result ≡ total_of bytes.now }
{
    let &[a, b, c, d, ..] = bytes.get(TOTAL..)? else {
        return None;
    };
    let low = two_digits(a)? + 100 * two_digits(b)?;
    let high = two_digits(c)? + 100 * two_digits(d)?;
    Some(low + 10_000 * high)
}

fn two_digits(byte: u8) -> Option<u32>
    ensures { result ≡ pair byte }
{
    let tens = byte / 16;
    let ones = byte % 16;
    if tens > 9 || ones > 9 {
        return None;
    }
    Some(tens as u32 * 10 + ones as u32)
}

impl Growth {
    // From the totals of the current and the previous record, where both can be read.
    pub fn between(current: Option<u32>, previous: Option<u32>) -> Option<Growth>
        ensures { result ≡ growth_of current previous }
    {
        let last = current?;
        let before = previous?;
        Some(if before <= last {
            Growth::Rise(last - before)
        } else {
            Growth::Fall(before - last)
        })
    }
}

// In kilowatt-hours, with its sign.
impl fmt::Display for Growth {
    ghost output = { λ g. Some (growth_text g) };

    fn fmt<W: fmt::Write>(&self, f: &mut fmt::Formatter<W>) -> fmt::Result {
        match self {
            Growth::Rise(rise) => write!(f, "+{} kWh", Hundredths(*rise)),
            Growth::Fall(fall) => write!(f, "-{} kWh", Hundredths(*fall)),
        }
    }
}

// A number of hundredths, written with two digits after the point.
#[derive(Drop)]
struct Hundredths(u32);

impl fmt::Display for Hundredths {
    ghost output = { λ n. Some (hundredths n.0) };

    fn fmt<W: fmt::Write>(&self, f: &mut fmt::Formatter<W>) -> fmt::Result {
        let whole = self.0 / 100;
        let rest = self.0 % 100;
        write!(f, "{whole}.{rest:02}")
    }
}
