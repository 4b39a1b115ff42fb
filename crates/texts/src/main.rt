//! Reads texts as filters of rows and as sources of Ivy, as a script on the standard input says line by line, and
//! prints what each call answered. docs/TEXTS.md has the lines of a script.
#![tactic(auto)]

mod filters;
mod sources;
mod trees;

use anyhow::{Context, Result, bail};
use std::io::{BufRead, BufReader};

fn main(rt: HostRuntime) -> Result<()> {
    let alloc = rt.alloc();
    let mut text = Vec::new(alloc);
    let mut number = 0u64;
    for line in BufReader::new(alloc, rt.reader())?.lines(alloc) {
        number = number.saturating_add(1);
        play(&rt, &mut text, line?.as_str()).context(format_args!("line {number}"))?;
    }
    Ok(())
}

// Does what one line says. An empty line, and one that begins with #, says nothing.
fn play(rt: &(impl Print + AllocGlobal), text: &mut Vec<u8>, line: &str) -> Result<()> {
    if line.is_empty() || line.starts_with('#') {
        return Ok(());
    }
    let (verb, rest) = line.split_once(' ').unwrap_or((line, ""));
    match verb {
        "case" => {
            text.clear();
            println!(rt; "case {rest}")?;
            Ok(())
        }
        "text" => add(text, 1, rest.as_bytes()),
        "times" => {
            let Some((times, piece)) = rest.split_once(' ') else {
                bail!("a number of times without a piece");
            };
            add(text, times.parse::<u32>()?, piece.as_bytes())
        }
        "bytes" => add(text, 1, &hex::decode(rt.alloc(), rest)?),
        "line" => add(text, 1, b"\n"),
        verb => ask(rt, text, verb, rest),
    }
}

// Adds a piece so many times.
fn add(text: &mut Vec<u8>, times: u32, piece: &[u8]) -> Result<()> {
    for _ in 0..times {
        text.extend_from_slice(piece)?;
    }
    Ok(())
}

// Prints what a call answers of the text.
fn ask(rt: &(impl Print + AllocGlobal), text: &[u8], verb: &str, rest: &str) -> Result<()> {
    match (verb, rest) {
        ("parse", "") => sources::parsed(rt, text),
        ("check", "") => sources::checked(rt, text),
        ("print", "") => sources::printed(rt, text),
        ("tree", "") => trees::given(rt, text),
        ("filter", kind) => filters::filter(rt, kind, text),
        ("by", "") => filters::attribute_names(rt, text),
        (verb, _) => bail!("no line of a script: {verb}"),
    }
}
