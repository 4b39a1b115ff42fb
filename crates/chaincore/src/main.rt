//! The program: the top call over the files, the standard output and the words of a runtime.
#![tactic(auto)]

ghost use Rattle.std.specs.Prelude.{◌≡◌, ◌≢◌, drop, IfErr, IfOk, MatchResult};
ghost use Rattle.std.specs.IoError.{error_kind};
ghost use Rattle.std.specs.Vec.Iter.{into_iter_items};

use chain_top::chain_main;
use keyed::{NoSigs, Sha256Id};
use outside::{StdFiles, StdSink};
use std::alloc::Global;
use std::env::Args;
use std::io::ErrorKind;
use std::process::ExitCode;
use std::{env, io};

/// The status where memory runs out.
const NO_MEMORY: u8 = 5;

/// The status where the runtime gives no words.
const NO_WORDS: u8 = 6;

fn main(rt: HostRuntime) -> ExitCode {
    let alloc = rt.alloc();
    let words = match words_of(alloc, env::args(&rt)) {
        Ok(words) => words,
        Err(status) => return ExitCode::from(status),
    };
    let mut files = StdFiles::new(&rt);
    let mut out = StdSink::new(&rt);
    ExitCode::from(chain_main(alloc, &words, &mut files, &mut out, &Sha256Id, &NoSigs))
}

// The words of the top call, from what the runtime answered, or the status to end with where there are none.
fn words_of(alloc: Global, given: io::Result<Args>) -> Result<Vec<String>, u8>
    // All that were given but the first, the program's name, or out of memory for their list.
    ensures words { IfOk given (λ args.
        MatchResult result (λ words. words.items ≡ drop 1 (into_iter_items args)) (λ status. status ≡ 5)) }
    ensures no_memory { IfErr given (λ error. error_kind error ≡ ErrorKind.OutOfMemory → result ≡ Err 5) }
    // A word that is no UTF-8 among them.
    ensures no_words { IfErr given (λ error. error_kind error ≢ ErrorKind.OutOfMemory → result ≡ Err 6) }
{
    match given {
        Ok(args) => match args.skip(1).collect::<Vec<String>>(alloc) {
            Ok(words) => Ok(words),
            Err(_) => Err(NO_MEMORY),
        },
        Err(error) if error.kind() == ErrorKind::OutOfMemory => Err(NO_MEMORY),
        Err(_) => Err(NO_WORDS),
    }
}
