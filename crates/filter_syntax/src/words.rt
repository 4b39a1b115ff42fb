//! The words and quoted texts that tokens are made of.
ghost use Rattle.std.specs.Prelude.{◌≡◌, ◌≤◌, length};
ghost use Rattle.std.specs.List.{list_all, prefix_len};
ghost use Rattle.filter_syntax.specs.Spelling.{begins_name, is_name_byte, is_word, is_quotable};
ghost use Rattle.filter_syntax.specs.Lexing.{word_token, token_of};

use crate::tokens::Kind;

/// A letter or `_`.
pub(crate) fn begins_name(byte: u8) -> bool
    ensures { result ≡ begins_name byte }
{
    byte.is_ascii_alphabetic() || byte == b'_'
}

/// A letter, a digit or `_`.
pub(crate) fn is_name_byte(byte: u8) -> bool
    ensures { result ≡ is_name_byte byte }
{
    byte.is_ascii_alphanumeric() || byte == b'_'
}

fn is_quotable(byte: u8) -> bool
    ensures { result ≡ is_quotable byte }
{
    byte >= b' ' && byte <= b'~' && byte != b'\''
}

/// How many letters, digits and `_` a text begins with.
#[tactic(auto, using(crate::proofs::Runs::runs))]
pub(crate) fn run_len(text: &[u8]) -> usize
    ensures is { result ≡ prefix_len is_name_byte text.now }
    ensures within { result ≤ length text.now }
{
    for (k, byte) in text.iter().enumerate() {
        if !is_name_byte(*byte) {
            return k;
        }
    }
    text.len()
}

/// How many bytes that may be quoted a text begins with.
#[tactic(auto, using(crate::proofs::Runs::runs))]
pub(crate) fn quotable_len(text: &[u8]) -> usize
    ensures is { result ≡ prefix_len is_quotable text.now }
    ensures within { result ≤ length text.now }
{
    for (k, byte) in text.iter().enumerate() {
        if !is_quotable(*byte) {
            return k;
        }
    }
    text.len()
}

/// A letter or `_`, and then letters, digits and `_`.
pub(crate) fn is_word(bytes: &[u8]) -> bool
    ensures { result ≡ is_word bytes.now }
{
    match bytes {
        [first, rest @ ..] => begins_name(*first) && are_name_bytes(rest),
        _ => false,
    }
}

fn are_name_bytes(bytes: &[u8]) -> bool
    ensures { result ≡ list_all is_name_byte bytes.now }
{
    bytes.iter().all(|byte| is_name_byte(*byte))
}

/// What token a word is.
#[tactic(auto, unfolding(crate::specs::Lexing::word_token))]
pub(crate) fn word_kind(word: &[u8]) -> Kind
    ensures { token_of result word.now ≡ word_token word.now }
{
    if word == b"AND".as_slice() {
        Kind::And
    } else if word == b"OR".as_slice() {
        Kind::Or
    } else if word == b"inputs".as_slice() {
        Kind::Inputs
    } else if word == b"outputs".as_slice() {
        Kind::Outputs
    } else {
        Kind::Name
    }
}
