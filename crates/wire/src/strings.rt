//! Strings after their lengths, words after a blank, and bytes at a place of a text.
ghost use Rattle.std.specs.Prelude.{◌≡◌, ◌↔◌, ◌^◌, ◌<◌, ◌≤◌, ◌+◌, ◌++◌, ◌∷◌, ◌⊎◌, ℕ, List, length, take, drop};
ghost use Rattle.std.specs.Prelude.{IfOk, IsOkAnd, OnOk, OnErr, IsErrOf, MatchResult};
ghost use Rattle.wire.specs.Spelling.{varstring};
ghost use Rattle.wire.specs.Reading.{varstring_at, IsTooBigString, IsNotShortest, IsShortString};

use crate::{Bytes, NoMemory, WireFault, put_varint, take_varint};

/// Appends the spelling of a string: its length and its bytes. After a refusal `out` is as it was.
#[tactic(auto, unfolding(crate::specs::Spelling::varstring))]
pub fn put_varstring(out: &mut Bytes, s: &[u8]) -> Result<(), NoMemory>
    ensures ok { OnOk result (out.new ≡ out.old ++ varstring s.now) }
    ensures err { OnErr result (out.new ≡ out.old) }
{
    let len = out.len();
    put_varint(out, s.len() as u64)?;
    if out.extend_from_slice(s).is_err() {
        out.truncate(len);
        return Err(NoMemory);
    }
    Ok(())
}

/// Appends a blank and a word. After a refusal the blank alone may have been appended.
pub fn put_word(out: &mut Bytes, word: &[u8]) -> Result<(), NoMemory>
    ensures { OnOk result (out.new ≡ out.old ++ (32 ∷ word.now)) }
{
    out.push(b' ')?;
    out.extend_from_slice(word)
}

/// The string of at most so many bytes with which the bytes begin, and how many of them spell it. Its length is tested
/// before its bytes are looked for.
pub fn take_varstring(b: &[u8], most: u64) -> Result<(&[u8], u64), WireFault>
    // What is read is spelled so.
    ensures within { IfOk result (λ x. (length x.0.now ≤ most) × (x.1 ≤ length b.now)) }
    ensures spelled { IfOk result (λ x. take x.1 b.now ≡ varstring x.0.now) }
    // What is spelled so is read, whatever follows it.
    ensures read { (s rest : List ℕ)
        → length s ≤ most
        → b.now ≡ varstring s ++ rest
        → IsOkAnd result (λ x. (x.0.now ≡ s) × (x.1 ≡ length (varstring s))) }
    // When each fault comes: the length's own faults first.
    ensures too_big { IsErrOf result WireFault.TooBig ↔ IsTooBigString most b.now }
    ensures not_shortest { IsErrOf result WireFault.NotShortest ↔ IsNotShortest b.now }
    ensures short { IsErrOf result WireFault.Short ↔ IsShortString most b.now }
    // The same as a function of the bytes.
    ensures exact { MatchResult result (λ x. varstring_at most b.now ≡ Ok (x.0.now, drop x.1 b.now))
        (λ e. varstring_at most b.now ≡ Err e) }
{
    string_of(b, most)
}

// The same, by reading alone.
#[tactic(auto, unfolding(crate::specs::Reading::varstring_at))]
fn string_of(b: &[u8], most: u64) -> Result<(&[u8], u64), WireFault>
    ensures within { IfOk result (λ x. (length x.0.now ≤ most) × (x.1 ≤ length b.now)) }
    ensures exact { MatchResult result (λ x. varstring_at most b.now ≡ Ok (x.0.now, drop x.1 b.now))
        (λ e. varstring_at most b.now ≡ Err e) }
{
    let (len, taken) = take_varint(b)?;
    if len > most {
        return Err(WireFault::TooBig);
    }
    let rest = &b[taken as usize..];
    if (rest.len() as u64) < len {
        return Err(WireFault::Short);
    }
    Ok((&rest[..len as usize], taken + len))
}

/// Copies bytes to a place of a text, and gives the place after them.
pub fn copy_at(text: &mut [u8], at: usize, bytes: &[u8]) -> usize
    requires { at + length bytes.now ≤ length text.old }
    ensures end { result ≡ at + length bytes.now }
    ensures prefix { take result text.new ≡ take at text.old ++ bytes.now }
    ensures len { length text.new ≡ length text.old }
{
    let end = at + bytes.len();
    text[at..end].copy_from_slice(bytes);
    end
}
