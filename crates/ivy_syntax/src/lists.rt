//! Lists of parts of a source.

ghost use Rattle.std.specs.Prelude.{◌≡◌, ◌≤◌, length, IfOk};
ghost use Rattle.grammars.specs.Gathered.{repeated};
ghost use Rattle.ivy_syntax.specs.Lexeme.{tokens};
ghost use Rattle.ivy_syntax.specs.Descent.{Reader, listed, is_word};
ghost use Rattle.ivy_syntax.specs.Agreement.{Agrees};

use crate::lexeme::{Keyword, Symbol};
use crate::reading::{Read, Rest, Wanted, expected, next_if};
use std::alloc::Global;
use wire::Listed;

/// A part of a source of which there are lists.
pub(crate) trait Part {
    type Tree: Drop;

    ghost rule: { Self → Reader Self.Tree };

    /// Reads such a part.
    fn read<'a>(&self, alloc: Global, rest: Rest<'a>) -> Read<'a, Self::Tree>
        ensures agrees { Agrees result (rule self.now (tokens rest.now)) }
        ensures shorter { IfOk result (λ found. length found.1.now ≤ length rest.now) };
}

/// part { "," part }
pub(crate) fn separated<'a, P: Part>(
    alloc: Global,
    part: &P,
    rest: Rest<'a>,
) -> Read<'a, Listed<P::Tree>>
    ensures { Agrees result (listed (P.rule part.now) (tokens rest.now)) }
{
    let (first, mut rest) = part.read(alloc, rest)?;
    let mut items = Listed::new(alloc);
    items.push(first)?;
    while let Some((_, behind)) = next_if(rest, Wanted::Sign(Symbol::Comma)) {
        let (item, left_over) = part.read(alloc, behind)?;
        items.push(item)?;
        rest = left_over;
    }
    Ok((items, rest))
}

/// keyword part { keyword part }
pub(crate) fn repeated<'a, P: Part>(
    alloc: Global,
    keyword: Keyword,
    part: &P,
    rest: Rest<'a>,
) -> Read<'a, Listed<P::Tree>>
    ensures { Agrees result (repeated (is_word keyword) (λ t. P.rule part.now) (tokens rest.now)) }
{
    let (_, behind) = expected(rest, Wanted::Word(keyword))?;
    let (first, mut rest) = part.read(alloc, behind)?;
    let mut items = Listed::new(alloc);
    items.push(first)?;
    while let Some((_, behind)) = next_if(rest, Wanted::Word(keyword)) {
        let (item, left_over) = part.read(alloc, behind)?;
        items.push(item)?;
        rest = left_over;
    }
    Ok((items, rest))
}
