//! Tokens, as a text is cut into them.

ghost use Rattle.std.specs.Prelude.{◌≡◌};
ghost use Rattle.ivy_syntax.specs.Token as spec;

/// A word with a meaning of its own, which is no name.
#[derive(Clone, Copy, PartialEq)]
pub(crate) enum Keyword {
    Contract,
    Clause,
    Locks,
    Requires,
    Of,
    Verify,
    Lock,
    Unlock,
    With,
    True,
    False,
}

impl Keyword {
    /// All of them.
    pub(crate) const ALL: [Keyword; 11] = [
        Keyword::Contract,
        Keyword::Clause,
        Keyword::Locks,
        Keyword::Requires,
        Keyword::Of,
        Keyword::Verify,
        Keyword::Lock,
        Keyword::Unlock,
        Keyword::With,
        Keyword::True,
        Keyword::False,
    ];

    /// As it is written.
    pub(crate) fn letters(self) -> &'static [u8]
        ensures { result.now ≡ spec.letters self }
    {
        match self {
            Keyword::Contract => b"contract",
            Keyword::Clause => b"clause",
            Keyword::Locks => b"locks",
            Keyword::Requires => b"requires",
            Keyword::Of => b"of",
            Keyword::Verify => b"verify",
            Keyword::Lock => b"lock",
            Keyword::Unlock => b"unlock",
            Keyword::With => b"with",
            Keyword::True => b"true",
            Keyword::False => b"false",
        }
    }
}

/// A bracket, a comma or a colon.
#[derive(Clone, Copy, PartialEq)]
pub(crate) enum Symbol {
    OpenParen,
    CloseParen,
    OpenBrace,
    CloseBrace,
    OpenBracket,
    CloseBracket,
    Comma,
    Colon,
}

/// An operator, as it is written: `Minus` stands before an operand or between two.
#[derive(Clone, Copy)]
pub(crate) enum Operator {
    Or,
    And,
    Equal,
    NotEqual,
    Less,
    LessEqual,
    Greater,
    GreaterEqual,
    ShiftLeft,
    ShiftRight,
    Plus,
    Minus,
    Star,
    Slash,
    Percent,
    Not,
}

/// What a token is, apart from its bytes. `End` is the end of the text, and `Bad` a byte that begins no token.
#[derive(Clone, Copy)]
pub(crate) enum Kind {
    Word(Keyword),
    Sign(Symbol),
    Operation(Operator),
    Name,
    Number(u64),
    Hex,
    Quoted,
    End,
    Bad,
}

/// A token of a text: its bytes, and how many stand before them. `End` and `Bad` have none.
#[derive(Clone, Copy)]
pub(crate) struct Lexeme<'a> {
    pub kind: Kind,
    pub bytes: &'a [u8],
    pub at: u64,
}

/// What a text begins with: so many bytes of a blank or a comment, a token of so many bytes, or neither.
#[derive(Clone, Copy)]
pub(crate) enum Front {
    Blank(usize),
    Token(Kind, usize),
    Wrong,
}
