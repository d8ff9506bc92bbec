// Loads a metering site's loss program, then walks over the site's archive, and prints each step.
#![tactic(auto)]

mod failure;
mod listing;
mod loss;
mod show;
mod walk;

use crate::failure::Failure;
use anyhow::anyhow;
use metering::{Archive, parse_bytes};
use std::{env, fs};

fn main(rt: HostRuntime) -> Result<(), Failure> {
    run(&rt)
}

fn run(rt: &HostRuntime) -> Result<(), Failure> {
    let mut words = env::args(rt)?.skip(1);
    let (Some(archive), Some(program)) = (words.next(), words.next()) else {
        return Err(anyhow!("usage: archive ARCHIVE PROGRAM").into());
    };
    let records = read_archive(rt, archive.as_str())?;
    show_program(rt, program.as_str())?;
    walk::walk(rt, &records)?;
    Ok(())
}

// A function of its own, so that the program's text and image are let go before the walk, which needs the memory.
fn show_program(rt: &HostRuntime, path: &str) -> Result<(), Failure> {
    let heap = rt.alloc();
    let text = read_text(rt, path)?;
    let image = parse_bytes(heap, text.as_str()).try_map_err(|e| Failure::told(
        heap,
        format_args!("{path} is no program: {e}"),
    ))?;
    loss::show_loss(rt, image.as_slice())?;
    Ok(())
}

fn read_archive(rt: &HostRuntime, path: &str) -> Result<Archive, Failure> {
    let heap = rt.alloc();
    let text = read_text(rt, path)?;
    Archive::parse(heap, text.as_str()).try_map_err(|e| Failure::told(
        heap,
        format_args!("{path} is no archive: {e}"),
    ))
}

fn read_text(rt: &HostRuntime, path: &str) -> Result<String, Failure> {
    fs::read_to_string(rt, path).try_map_err(|e| Failure::told(
        rt.alloc(),
        format_args!("cannot read {path}: {e}"),
    ))
}
