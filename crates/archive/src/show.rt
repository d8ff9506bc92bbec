// One step of the walk as a line of text.
use metering::Growth;
use std::fmt;

// What the walk found at one current row.
#[derive(Drop)]
pub struct Step {
    pub row: u32,
    pub record: Vec<u8>,
    pub current_holds: bool,
    pub previous_holds: bool,
    pub growth: Option<Growth>,
}

impl fmt::Display for Step {
    fn fmt<W: fmt::Write>(&self, f: &mut fmt::Formatter<W>) -> fmt::Result {
        write!(
            f,
            "row {:>2}  {}  check sums: current {}, previous {}  total ",
            self.row,
            Heading(self.record.as_slice()),
            verdict(self.current_holds),
            verdict(self.previous_holds)
        )?;
        match self.growth {
            Some(growth) => write!(f, "{growth}"),
            None => write!(f, "not readable"),
        }
    }
}

// A record's time and link flags.
#[derive(Drop)]
struct Heading<'a>(&'a [u8]);

impl fmt::Display for Heading<'_> {
    // The clock's bytes are decimal digits already; a set link flag is a device that did not answer.
    fn fmt<W: fmt::Write>(&self, f: &mut fmt::Formatter<W>) -> fmt::Result {
        match self.0 {
            [
                year,
                month,
                day,
                hour,
                minute,
                _status,
                links0,
                links8,
                links16,
                ..
            ] => {
                write!(
                    f,
                    "20{year:02x}-{month:02x}-{day:02x} {hour:02x}:{minute:02x}"
                )?;
                write!(f, "  links {links0:02x} {links8:02x} {links16:02x}")
            }
            _ => write!(f, "no time"),
        }
    }
}

fn verdict(holds: bool) -> &'static str {
    if holds { "holds" } else { "FAILS" }
}
