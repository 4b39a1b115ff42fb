//! Plays whole calls of the program, over files and a sink in memory, as a script on the standard input says them line
//! by line, and prints what each call answered. docs/CALLS.md has the lines of a script.
#![tactic(auto)]

mod begun;
mod case;
mod words;

use anyhow::{Context, Result, bail};
use case::Case;
use std::alloc::Global;
use std::io::{BufRead, BufReader};
use words::{numbers, pieces, pieces_bytes, single_bytes, words_of};

fn main(rt: HostRuntime) -> Result<()> {
    let alloc = rt.alloc();
    let mut case = Case::new(alloc);
    let mut number = 0u64;
    for line in BufReader::new(alloc, rt.reader())?.lines(alloc) {
        number = number.saturating_add(1);
        play(&rt, &mut case, line?.as_str()).context(format_args!("line {number}"))?;
    }
    Ok(())
}

// Does what one line says. An empty line, and one that begins with #, says nothing.
fn play(rt: &(impl Print + AllocGlobal), case: &mut Case, line: &str) -> Result<()> {
    if line.is_empty() || line.starts_with('#') {
        return Ok(());
    }
    let alloc = rt.alloc();
    let words = words_of(alloc, line)?;
    let Some((verb, rest)) = words.split_first() else {
        bail!("a line of blanks");
    };
    match (verb.as_str(), rest) {
        ("case", [name]) => {
            *case = Case::new(alloc);
            println!(rt; "case {name}")?;
            Ok(())
        }
        ("call", words) => case.call(rt, words),
        ("quiet", words) => case.call_quietly(rt, words),
        ("wide", words) => case.call(rt, &expanded(alloc, words)?),
        ("show", [name]) => case.show(rt, name.as_str()),
        ("calls", []) => case.tell_calls(rt),
        ("begun", []) => case.show_begun(rt),
        (verb, rest) => prepare(alloc, case, verb, rest),
    }
}

// Lines that print nothing: what the next calls find.
fn prepare(alloc: Global, case: &mut Case, verb: &str, rest: &[String]) -> Result<()> {
    match (verb, rest) {
        ("put", [name, hex]) => case.put(alloc, name.as_str(), single_bytes(alloc, hex.as_str())?),
        ("text", [name, word]) => case.put(alloc, name.as_str(), word.as_bytes().to_vec(alloc)?),
        ("add", [name, times, word]) => {
            let piece = pieces_bytes(alloc, word.as_str())?;
            case.add(alloc, name.as_str(), times.parse::<u32>()?, &piece)
        }
        (verb, rest) => plan(alloc, case, verb, rest),
    }
}

// Lines that stand before the first call: which calls fail, what a failing append leaves, and good signatures.
fn plan(alloc: Global, case: &mut Case, verb: &str, rest: &[String]) -> Result<()> {
    match (verb, rest) {
        ("fails", calls) => case.fail_files(alloc, numbers(alloc, calls)?),
        ("tear", [keep]) => case.tear_files(keep.parse::<u64>()?),
        ("sink", writes) => case.fail_sink(alloc, numbers(alloc, writes)?),
        ("good", [key, message, signature]) => {
            let key = single_bytes(alloc, key.as_str())?;
            let message = single_bytes(alloc, message.as_str())?;
            let signature = single_bytes(alloc, signature.as_str())?;
            case.add_good(&key, &message, &signature)
        }
        (verb, _) => bail!("no line of a script: {verb}"),
    }
}

// The words that words in pieces stand for.
fn expanded(alloc: Global, words: &[String]) -> Result<Vec<String>> {
    let mut long = Vec::new(alloc);
    for word in words {
        long.push(pieces(alloc, word.as_str())?)?;
    }
    Ok(long)
}
