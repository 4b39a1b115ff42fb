//! The words of a script's lines.
use anyhow::{Result, bail, ensure};
use std::alloc::Global;

/// The words of a line, parted by blanks. A word in quotes may be empty or have blanks, and `\xHH` there is a byte.
pub fn words_of(alloc: Global, line: &str) -> Result<Vec<String>> {
    let mut words = Vec::new(alloc);
    let mut is_quoted = false;
    for part in line.split('"') {
        if is_quoted {
            words.push(unescaped(alloc, part)?)?;
        } else {
            for word in part.split(' ').filter(|word| !word.is_empty()) {
                words.push(String::from_str(alloc, word)?)?;
            }
        }
        is_quoted = !is_quoted;
    }
    ensure!(is_quoted, "a quote that is not closed");
    Ok(words)
}

// The text between two quotes, which has to be text once its bytes are put in.
fn unescaped(alloc: Global, inner: &str) -> Result<String> {
    let mut bytes = Vec::new(alloc);
    for (place, part) in inner.split("\\x").enumerate() {
        let mut text = part;
        if place > 0 {
            let Some((digits, behind)) = part.split_at_checked(2) else {
                bail!("an escape without two digits");
            };
            bytes.extend_from_slice(&hex::decode(alloc, digits)?)?;
            text = behind;
        }
        bytes.extend_from_slice(text.as_bytes())?;
    }
    Ok(String::from_utf8(bytes)?)
}

/// The text that pieces stand for: they are joined by +, and a piece is a text or TEXT*TIMES.
pub fn pieces(alloc: Global, word: &str) -> Result<String> {
    let mut text = String::new(alloc);
    for piece in word.split('+') {
        let (once, times) = match piece.split_once('*') {
            Some((once, times)) => (once, times.parse::<u32>()?),
            None => (piece, 1),
        };
        for _ in 0..times {
            text.push_str(once)?;
        }
    }
    Ok(text)
}

/// The bytes of a hex word, where - stands for none.
pub fn single_bytes(alloc: Global, word: &str) -> Result<Vec<u8>> {
    let digits = if word == "-" { "" } else { word };
    Ok(hex::decode(alloc, digits)?)
}

/// The bytes of a hex word in pieces.
pub fn pieces_bytes(alloc: Global, word: &str) -> Result<Vec<u8>> {
    let digits = pieces(alloc, word)?;
    Ok(hex::decode(alloc, digits.as_str())?)
}

/// The hex word of bytes, where - stands for none.
pub fn hex_word(alloc: Global, bytes: &[u8]) -> Result<String> {
    if bytes.is_empty() {
        return Ok(String::from_str(alloc, "-")?);
    }
    Ok(hex::encode(alloc, bytes)?)
}

/// The word that a line of a script has for a name. It is the name itself where that is not empty and all of its bytes
/// are printable, none of them a blank or a quote; else it is in quotes, with `\xHH` for a byte.
pub fn name_word(alloc: Global, name: &str) -> Result<String> {
    let bytes = name.as_bytes();
    if !bytes.is_empty() && bytes.iter().all(|byte| is_plain(*byte)) {
        return Ok(String::from_str(alloc, name)?);
    }
    let mut quoted = String::from_str(alloc, "\"")?;
    for byte in bytes {
        if *byte == b' ' || (is_plain(*byte) && *byte != b'\\') {
            quoted.push(char::from(*byte))?;
        } else {
            quoted.push_str("\\x")?;
            quoted.push_str(hex::encode(alloc, &[*byte])?.as_str())?;
        }
    }
    quoted.push('"')?;
    Ok(quoted)
}

// Whether a byte may stand in a word that is not in quotes: a printable one but for the blank and the quote.
fn is_plain(byte: u8) -> bool {
    (b'!'..=b'~').contains(&byte) && byte != b'"'
}

/// The numbers that words say.
pub fn numbers(alloc: Global, words: &[String]) -> Result<Vec<u64>> {
    let mut found = Vec::new(alloc);
    for word in words {
        found.push(word.parse::<u64>()?)?;
    }
    Ok(found)
}
