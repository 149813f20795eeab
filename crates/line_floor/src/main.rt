//! `line_floor BYTES REST`: the least that a program over lines of JSON does, to compare others
//! with. It reads standard input line by line, parses each line and drops it, and writes BYTES
//! bytes for each line and REST bytes at the end.
#![tactic(auto)]

use anyhow::{Context, Error};
use serde_json::Value;
use std::alloc::Global;
use std::io::{BufRead, BufReader, BufWriter, Write, writer};
use std::rt::Env;

/// The numbers that the program was given, in their order.
fn numbers<R: Env + AllocGlobal>(rt: &R) -> Result<(usize, usize), Error> {
    let alloc = rt.alloc();
    let words: Vec<String> = std::env::args(rt)?.collect(alloc)?;
    let bytes = words.get(1).context("no BYTES")?.parse()?;
    let rest = words.get(2).context("no REST")?.parse()?;
    Ok((bytes, rest))
}

/// So many bytes to write.
fn filler(alloc: Global, count: usize) -> Result<Vec<u8>, Error> {
    Ok(vec![in alloc; b'.'; count]?)
}

fn run<R: Env + Input + Print + AllocGlobal>(rt: &R) -> Result<(), Error> {
    let alloc = rt.alloc();
    let (bytes, rest) = numbers(rt)?;
    let reply = filler(alloc, bytes)?;
    let mut output = BufWriter::new(alloc, writer(rt))?;
    for line in BufReader::new(alloc, rt.reader())?.lines(alloc) {
        let _ = Value::from_str(alloc, line?.as_str())?;
        output.write_all(&reply)?;
    }
    output.write_all(&filler(alloc, rest)?)?;
    output.flush()?;
    Ok(())
}

fn main(rt: HostRuntime) -> Result<(), Error> {
    run(&rt)
}
