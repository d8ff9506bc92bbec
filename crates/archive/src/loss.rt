// The loss program: its listing, the verdict on it, and what loading says of four bad variants.
use crate::listing::Line;
use loading::{Program, Verdict, WIDTH, judge_image};
use metering::Archive;
use records::Layout;

// The site's records stand under base 0; the other bases are absent.
const LAYOUTS: [Layout; 8] = [
    Layout {
        length: Archive::RECORD,
    },
    Layout::ABSENT,
    Layout::ABSENT,
    Layout::ABSENT,
    Layout::ABSENT,
    Layout::ABSENT,
    Layout::ABSENT,
    Layout::ABSENT,
];

pub fn show_loss(rt: &HostRuntime, image: &[u8]) -> anyhow::Result<()> {
    let mut program = Program::new();
    let verdict = program.load(image, &LAYOUTS);
    println!(rt; "the loss program, {} instructions", program.count())?;
    let encoded = image.chunks_exact(WIDTH);
    for (number, (bytes, instruction)) in encoded.zip(program.instructions()).enumerate() {
        let line = Line {
            number,
            bytes,
            instruction: *instruction,
        };
        println!(rt; "{line}")?;
    }
    show_verdict(rt, verdict)?;
    show_variant(rt, image, "an unknown opcode", 2, [0x3c, 0, 0, 0, 0])?;
    show_variant(
        rt,
        image,
        "a constant with its digits and exponent exchanged",
        15,
        [0x1f, 0xc0, 0, 0, 0x02],
    )?;
    show_variant(rt, image, "a jump past the end", 19, [0x34, 64, 0, 0, 0])?;
    show_variant(rt, image, "no END", 63, [0, 0, 0, 0, 0])
}

// The same image with one instruction replaced.
fn show_variant(
    rt: &HostRuntime,
    image: &[u8],
    what: &str,
    number: usize,
    bytes: [u8; WIDTH],
) -> anyhow::Result<()> {
    let mut variant = image.to_vec(rt.alloc())?;
    if let Some(instruction) = variant.chunks_exact_mut(WIDTH).nth(number) {
        instruction.copy_from_slice(&bytes);
    }
    print!(rt; "{what}: ")?;
    show_verdict(rt, judge_image(&variant, &LAYOUTS))
}

fn show_verdict(rt: &HostRuntime, verdict: Verdict) -> anyhow::Result<()> {
    match verdict {
        Ok(None) => println!(rt; "accepted, no step bound")?,
        Ok(Some(bound)) => println!(rt; "accepted, at most {bound} steps a cycle")?,
        Err(error) => println!(rt; "{error}")?,
    }
    Ok(())
}
