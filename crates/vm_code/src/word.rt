//! Words of assembler text: an instruction each.
ghost use Rattle.std.specs.Prelude.{◌≡◌, ◌+◌, ◌<◌, ◌^◌, IfOk, IfSome, vec_len};
ghost use Rattle.std.specs.List.{list_all};
ghost use Rattle.std.specs.Option.{option_and_then, option_map};
ghost use Rattle.std.specs.Char.{is_ascii_digit};
ghost use Rattle.vm_code.specs.Instruction.{is_plain, jump};
ghost use Rattle.vm_code.specs.Names.{code_of};
ghost use Rattle.vm_code.specs.Text.{field_len};
ghost use Rattle.vm_code.specs.Word.{word_read, with_argument, without_argument, rest_after_0x, named, data_of};
ghost use Rattle.vm_code.specs.Word.{counted, hex_read, is_lower_digit, place_read};
ghost use Rattle.vm_code.specs.Written.{Says};

use crate::codes::{DATA_MAX, DATA_MIN, JUMP, JUMPIF, PUSHDATA1, PUSHDATA2, PUSHDATA4};
use crate::is_plain;
use crate::names::code_of;
use std::alloc::{AllocError, Global};
use wire::decimal_within;

/// An instruction that a word says: its code, what it pushes and where it jumps, as of one that was read.
#[derive(Drop)]
pub struct Word {
    pub code: u8,
    pub pushed: Vec<u8>,
    pub target: u32,
}

/// The instruction whose text a word is, or none.
pub fn read_word(alloc: Global, word: &str) -> Result<Option<Word>, AllocError>
    ensures reads { IfOk result (λ said. Says said (word_read word.now)) }
    ensures small { IfOk result (λ said. IfSome said (λ said. vec_len said.pushed < 2 ^ 32)) }
{
    match word.split_once(':') {
        Some((name, argument)) => with_argument(alloc, code_of(name), argument),
        None => without_argument(alloc, word),
    }
}

// The word of a name, a colon and an argument.
fn with_argument(
    alloc: Global,
    code: Option<u8>,
    argument: &str,
) -> Result<Option<Word>, AllocError>
    ensures reads { IfOk result (λ said. Says said (with_argument code argument.now)) }
    ensures small { IfOk result (λ said. IfSome said (λ said. vec_len said.pushed < 2 ^ 32)) }
{
    match code {
        Some(PUSHDATA1) => counted(alloc, PUSHDATA1, 0xff, argument),
        Some(PUSHDATA2) => counted(alloc, PUSHDATA2, 0xffff, argument),
        Some(PUSHDATA4) => counted(alloc, PUSHDATA4, 0xffff_ffff, argument),
        Some(code @ (JUMP | JUMPIF)) => Ok(jump(alloc, code, argument)),
        _ => Ok(None),
    }
}

// A word without a colon.
fn without_argument(alloc: Global, word: &str) -> Result<Option<Word>, AllocError>
    ensures reads { IfOk result (λ said. Says said (without_argument (rest_after_0x word.now) word.now)) }
    ensures small { IfOk result (λ said. IfSome said (λ said. vec_len said.pushed < 2 ^ 32)) }
{
    match rest_after_0x(word.as_bytes()) {
        Some(digits) => data(alloc, digits),
        None => Ok(named(alloc, code_of(word))),
    }
}

fn rest_after_0x(word: &[u8]) -> Option<&[u8]>
    ensures { option_map (λ digits. digits.now) result ≡ rest_after_0x word.now }
{
    match word {
        [b'0', b'x', digits @ ..] => Some(digits),
        _ => None,
    }
}

// It is a name alone.
fn named(alloc: Global, code: Option<u8>) -> Option<Word>
    ensures reads { Says result (named code) }
    ensures small { IfSome result (λ said. vec_len said.pushed < 2 ^ 32) }
{
    match code {
        Some(code) if is_plain(code) => Some(Word {
            code,
            pushed: Vec::new(alloc),
            target: 0,
        }),
        _ => None,
    }
}

// It is bytes, as many as their code says.
fn data(alloc: Global, digits: &[u8]) -> Result<Option<Word>, AllocError>
    ensures reads { IfOk result (λ said. Says said (option_and_then data_of (hex_read digits.now))) }
    ensures small { IfOk result (λ said. IfSome said (λ said. vec_len said.pushed < 2 ^ 32)) }
{
    let Some(pushed) = lower_hex(alloc, digits)? else {
        return Ok(None);
    };
    let len = pushed.len();
    if len < DATA_MIN as usize || len > DATA_MAX as usize {
        return Ok(None);
    }
    Ok(Some(Word {
        code: len as u8,
        pushed,
        target: 0,
    }))
}

// The argument is bytes, at most so many.
fn counted(alloc: Global, code: u8, most: usize, argument: &str) -> Result<Option<Word>, AllocError>
    requires count { most + 1 ≡ 256 ^ field_len code }
    requires small { most < 2 ^ 32 }
    ensures reads { IfOk result (λ said. Says said (option_and_then (counted code) (hex_read argument.now))) }
    ensures small { IfOk result (λ said. IfSome said (λ said. vec_len said.pushed < 2 ^ 32)) }
{
    match lower_hex(alloc, argument.as_bytes())? {
        Some(pushed) if pushed.len() <= most => Ok(Some(Word {
            code,
            pushed,
            target: 0,
        })),
        _ => Ok(None),
    }
}

// The argument is a place.
fn jump(alloc: Global, code: u8, argument: &str) -> Option<Word>
    ensures reads { Says result (option_map (jump code) (place_read argument.now)) }
    ensures small { IfSome result (λ said. vec_len said.pushed < 2 ^ 32) }
{
    let target = decimal(argument)?;
    Some(Word {
        code,
        pushed: Vec::new(alloc),
        target,
    })
}

// The bytes of hex in lower case, or that it is none.
#[tactic(auto, unfolding(crate::specs::Word::hex_read))]
fn lower_hex(alloc: Global, digits: &[u8]) -> Result<Option<Vec<u8>>, AllocError>
    ensures { IfOk result (λ bytes. option_map (λ bytes. bytes.items) bytes ≡ hex_read digits.now) }
{
    if !are_lower_digits(digits) {
        return Ok(None);
    }
    match hex::decode(alloc, digits) {
        Ok(bytes) => Ok(Some(bytes)),
        Err(hex::FromHexError::OutOfMemory) => Err(AllocError),
        Err(_) => Ok(None),
    }
}

fn are_lower_digits(digits: &[u8]) -> bool
    ensures { result ≡ list_all is_lower_digit digits.now }
{
    digits
        .iter()
        .all(|c| matches!(c, b'0'..=b'9' | b'a'..=b'f'))
}

// The number below 2^32 of digits without a leading zero.
fn decimal(digits: &str) -> Option<u32>
    ensures { result ≡ place_read digits.now }
{
    let place = decimal_within(digits.as_bytes(), u64::from(u32::MAX))?;
    Some(place as u32)
}
