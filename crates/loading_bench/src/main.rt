// How long loading takes: judges and decodes the longest images. With a number as its argument, it repeats that often and prints the time.
#![tactic(auto)]

use control::MOST_INSTRUCTIONS;
use loading::{Program, WIDTH};
use records::Layout;
use std::env;
use std::time::Instant;

const LAYOUTS: [Layout; 8] = [Layout { length: 512 }; 8];

const BYTES: usize = MOST_INSTRUCTIONS * WIDTH;

fn main(rt: HostRuntime) -> anyhow::Result<()> {
    run(&rt)
}

fn run(rt: &HostRuntime) -> anyhow::Result<()> {
    let rounds = match env::args(rt)?.nth(1) {
        Some(word) => word.as_str().parse::<u32>()?,
        None => 0,
    };
    measure(
        rt,
        "constants",
        &filled([0x19, 0xc0, 0x50, 0x23, 0x12]),
        rounds,
    )?;
    measure(
        rt,
        "fields",
        &filled([0x1d, 0x40, 0x2c, 0x01, 0x44]),
        rounds,
    )?;
    measure(
        rt,
        "jumps to the end",
        &filled([0x33, 0xff, 0x03, 0x00, 0x00]),
        rounds,
    )
}

// As many of one instruction as fit, and an END.
fn filled(instruction: [u8; WIDTH]) -> [u8; BYTES] {
    let mut image = [0u8; BYTES];
    for bytes in image.chunks_exact_mut(WIDTH) {
        bytes.copy_from_slice(&instruction);
    }
    image[BYTES - WIDTH] = 0xff;
    image
}

fn measure(rt: &HostRuntime, what: &str, image: &[u8], rounds: u32) -> anyhow::Result<()> {
    let mut program = Program::new();
    let verdict = program.load(image, &LAYOUTS);
    match verdict {
        Ok(Some(bound)) => println!(rt;
            "{MOST_INSTRUCTIONS} {what}: accepted, at most {bound} steps"
        )?,
        _ => println!(rt; "{MOST_INSTRUCTIONS} {what}: no bound")?,
    }
    if rounds > 0 {
        let start = Instant::now(rt)?;
        for _ in 0..rounds {
            let _ = program.load(image, &LAYOUTS);
        }
        let nanoseconds = start.elapsed(rt)?.as_nanos() / u128::from(rounds);
        println!(rt; "    {nanoseconds} ns a load")?;
    }
    Ok(())
}
