//! The grammar of words.
ghost use Rattle.std.specs.Prelude.{◌≡◌, ◌+◌, ◌<◌, ◌^◌, length, map, string_bytes, IfOk, IfSome};
ghost use Rattle.command_words.specs.Command.{command_of, vm_words, init_words, apply_words, quorum_words};
ghost use Rattle.command_words.specs.Seen.{seen_command, HasLimit};

use std::alloc::Global;
use wire::{MAX_NUMBER, NoMemory, decimal_within};

// Until predicates run in frames of their own, a limit is at most 100,000.
const LIMIT_MOST: u64 = 100_000;

// The keys that a quorum has at most.
const KEYS_MOST: usize = 16;

/// A command with the words that it takes.
#[derive(Clone, Copy)]
pub enum Command<'a> {
    /// The limit, at most 100,000, and the program and its arguments.
    Vm {
        limit: u64,
        program: &'a str,
        args: &'a [String],
    },
    /// The ledger's name, the time of its initial block, and that block's next program.
    Init {
        ledger: &'a str,
        time: u64,
        program: &'a str,
    },
    /// The ledger's name, and that of the file of offers.
    Apply {
        ledger: &'a str,
        offers: &'a str,
    },
    /// How many of the keys are asked for, and the keys, from 1 to 16.
    Quorum {
        m: u64,
        keys: &'a [String],
    },
}

/// The command that words say, or none where they are outside the grammar. No command of today allocates for its words.
pub fn command_of(_alloc: Global, words: &[String]) -> Result<Option<Command<'_>>, NoMemory>
    ensures reads { IfOk result (λ command. seen_command command ≡ command_of (map string_bytes words.now)) }
    ensures limit { IfOk result HasLimit }
{
    let Some((name, rest)) = words.split_first() else {
        return Ok(None);
    };
    match name.as_str() {
        "vm" => Ok(vm_words(rest)),
        "init" => Ok(init_words(rest)),
        "apply" => Ok(apply_words(rest)),
        "quorum" => Ok(quorum_words(rest)),
        _ => Ok(None),
    }
}

fn vm_words(words: &[String]) -> Option<Command<'_>>
    ensures reads { seen_command result ≡ vm_words (map string_bytes words.now) }
    ensures limit { HasLimit result }
{
    match words {
        [limit, program, args @ ..] => {
            let limit = decimal_within(limit.as_bytes(), LIMIT_MOST)?;
            Some(Command::Vm {
                limit,
                program: program.as_str(),
                args,
            })
        }
        _ => None,
    }
}

fn init_words(words: &[String]) -> Option<Command<'_>>
    ensures reads { seen_command result ≡ init_words (map string_bytes words.now) }
    ensures limit { HasLimit result }
{
    match words {
        [ledger, time, program] => {
            let time = decimal_within(time.as_bytes(), MAX_NUMBER)?;
            Some(Command::Init {
                ledger: ledger.as_str(),
                time,
                program: program.as_str(),
            })
        }
        _ => None,
    }
}

fn apply_words(words: &[String]) -> Option<Command<'_>>
    ensures reads { seen_command result ≡ apply_words (map string_bytes words.now) }
    ensures limit { HasLimit result }
{
    match words {
        [ledger, offers] => Some(Command::Apply {
            ledger: ledger.as_str(),
            offers: offers.as_str(),
        }),
        _ => None,
    }
}

fn quorum_words(words: &[String]) -> Option<Command<'_>>
    ensures reads { seen_command result ≡ quorum_words (map string_bytes words.now) }
    ensures limit { HasLimit result }
{
    match words {
        [m, keys @ ..] => {
            let m = decimal_within(m.as_bytes(), MAX_NUMBER)?;
            if m == 0 || m > keys.len() as u64 || keys.len() > KEYS_MOST {
                return None;
            }
            Some(Command::Quorum { m, keys })
        }
        _ => None,
    }
}
