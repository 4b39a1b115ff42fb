//! Programs as assembler text, and back.
ghost use Rattle.std.specs.Prelude.{◌≡◌, ◌++◌, ◌<◌, ◌≤◌, ◌^◌, IfOk, IfErr, OnOk, string_bytes, vec_len, codes, decimal};
ghost use Rattle.vm_code.specs.Assembly.{IsAssembly, IsMisread, IsBad};
ghost use Rattle.vm_code.specs.Seen.{seen};
ghost use Rattle.vm_code.specs.Text.{bytes_of, field_len, field_value, text_of};
ghost use Rattle.vm_code.specs.Written.{said, with_word};

use crate::codes::{DATA_MAX, DATA_MIN, JUMP, JUMPIF, PUSHDATA1, PUSHDATA2, PUSHDATA4};
use crate::names::name_of;
use crate::word::{Word, read_word};
use crate::{CodeFault, Instruction, next};
use std::alloc::{AllocError, Global};

/// Why a text is not assembled.
#[derive(Clone, Copy, Debug, PartialEq, Eq)]
pub enum AsmFault {
    /// The first word that is no word of assembler text begins at this byte.
    Bad { at: u64 },
    /// Out of memory.
    NoMemory,
}

impl From<AllocError> for CodeFault {
    ghost use Rattle.vm_code.specs.declared.CodeFault.TheVariants as faults;

    ghost from_gives = { λ _ e. e ≡ faults.NoMemory };

    fn from(_: AllocError) -> CodeFault {
        CodeFault::NoMemory
    }
}

impl From<AllocError> for AsmFault {
    ghost use Rattle.vm_code.specs.declared.assembler.AsmFault.TheVariants as faults;

    ghost from_gives = { λ _ e. e ≡ faults.NoMemory };

    fn from(_: AllocError) -> AsmFault {
        AsmFault::NoMemory
    }
}

/// The assembler text of a program: the words of its instructions with one space between two.
pub fn disassemble(alloc: Global, program: &[u8]) -> Result<String, CodeFault>
    ensures text { IfOk result (λ text. IsAssembly (string_bytes text) program.now) }
    ensures fault { IfErr result (λ fault. IsMisread program.now fault) }
{
    let mut text = String::new(alloc);
    let mut at = 0;
    while at < program.len() as u64 {
        let i = next(program, at)?;
        put_word(alloc, &mut text, &i)?;
        at += i.len;
    }
    Ok(text)
}

// Adds the text of an instruction.
fn put_word(alloc: Global, text: &mut String, i: &Instruction<'_>) -> Result<(), AllocError>
    ensures { OnOk result (string_bytes text.new ≡ with_word (string_bytes text.old) (text_of (seen i.now))) }
{
    let word = word_of(alloc, i)?;
    append_word(text, word.as_str())
}

// Adds a word, after a space where words stand before it.
fn append_word(text: &mut String, word: &str) -> Result<(), AllocError>
    ensures { OnOk result (string_bytes text.new ≡ with_word (string_bytes text.old) word.now) }
{
    if !text.is_empty() {
        text.push(' ')?;
    }
    text.push_str(word)
}

// The text of an instruction.
#[tactic(auto, unfolding(crate::specs::Text::text_of))]
fn word_of(alloc: Global, i: &Instruction<'_>) -> Result<String, AllocError>
    ensures { IfOk result (λ word. string_bytes word ≡ text_of (seen i.now)) }
{
    let name = name_of(i.code);
    match i.code {
        DATA_MIN..=DATA_MAX => {
            let hex = hex::encode(alloc, i.pushed)?;
            format!(in alloc; "0x{hex}")
        }
        PUSHDATA1..=PUSHDATA4 => {
            let hex = hex::encode(alloc, i.pushed)?;
            push_of(alloc, name, hex.as_str())
        }
        JUMP | JUMPIF => jump_of(alloc, name, i.target),
        _ => String::from_str(alloc, name),
    }
}

// A name with hex.
fn push_of(alloc: Global, name: &str, hex: &str) -> Result<String, AllocError>
    ensures { IfOk result (λ word. string_bytes word ≡ name.now ++ codes ":" ++ hex.now) }
{
    format!(in alloc; "{name}:{hex}")
}

// A name with a place.
fn jump_of(alloc: Global, name: &str, target: u32) -> Result<String, AllocError>
    ensures { IfOk result (λ word. string_bytes word ≡ name.now ++ codes ":" ++ decimal target) }
{
    format!(in alloc; "{name}:{target}")
}

/// The program of an assembler text. Of a text that is none the fault is reported with the first byte of the first word
/// that is none. An empty word is none: it stands between two spaces in a row, before one at the start, after one at
/// the end.
pub fn assemble(alloc: Global, text: &str) -> Result<Vec<u8>, AsmFault>
    ensures program { IfOk result (λ program. IsAssembly text.now program.items) }
    ensures fault { IfErr result (λ fault. IsBad text.now fault) }
{
    let mut program = Vec::new(alloc);
    if text.is_empty() {
        return Ok(program);
    }
    let mut at = 0;
    for word in text.split(' ') {
        match read_word(alloc, word)? {
            Some(said) => put(&mut program, &said)?,
            None => return Err(AsmFault::Bad { at }),
        }
        at += word.len() as u64 + 1;
    }
    Ok(program)
}

// Adds the bytes of an instruction.
#[tactic(auto, unfolding(crate::specs::Text::bytes_of))]
fn put(program: &mut Vec<u8>, word: &Word) -> Result<(), AllocError>
    requires { vec_len word.now.pushed < 2 ^ 32 }
    ensures { OnOk result (program.new.items ≡ program.old.items ++ bytes_of (said word.now)) }
{
    let field = field_value(word).to_le_bytes();
    program.push(word.code)?;
    program.extend_from_slice(&field[..field_len(word.code)])?;
    program.extend_from_slice(word.pushed.as_slice())
}

// The count of data bytes, or the place of a jump.
fn field_value(word: &Word) -> u32
    requires { vec_len word.now.pushed < 2 ^ 32 }
    ensures { result ≡ field_value (said word.now) }
{
    match word.code {
        JUMP | JUMPIF => word.target,
        _ => word.pushed.len() as u32,
    }
}

// In how many bytes it stands.
fn field_len(code: u8) -> usize
    ensures value { result ≡ field_len code }
    ensures small { result ≤ 4 }
{
    match code {
        PUSHDATA1 => 1,
        PUSHDATA2 => 2,
        PUSHDATA4 | JUMP | JUMPIF => 4,
        _ => 0,
    }
}
