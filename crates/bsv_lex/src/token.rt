ghost use Rattle.std.specs.Prelude.{◌≡◌};
ghost use Rattle.bsv_lex.specs.declared.token.LexFault.TheVariants.{OutOfMemory};

use bsv_ast::Span;
use std::alloc::{AllocError, AllocFailed};

/// What a token is.
#[derive(Clone, Copy, Debug, PartialEq, Eq)]
pub enum TokenKind {
    /// A name that begins with a small letter or `_`.
    Lower,
    /// A name that begins with a capital letter.
    Upper,
    /// A name that the language keeps for itself.
    Keyword,
    Number,
    Text,
    Symbol,
}

/// A token: the bytes of the source from `start` on, up to and without `end`.
#[derive(Clone, Copy, Debug, PartialEq, Eq)]
pub struct Token {
    pub kind: TokenKind,
    pub start: u32,
    pub end: u32,
}

impl Token {
    /// Where the token stands.
    pub fn span(self) -> Span
        ensures { result ≡ record { start = self.start; end = self.end } }
    {
        Span {
            start: self.start,
            end: self.end,
        }
    }
}

/// Why a source has no tokens, with the byte at which the bad token or comment begins.
#[derive(Clone, Copy, Debug, PartialEq, Eq)]
pub enum LexFault {
    /// A byte outside comments and texts begins no token.
    BadByte(u32),
    /// A `/*` is not closed.
    OpenComment(u32),
    /// A number or a text is malformed.
    BadLiteral(u32),
    /// A name or a number has more than 255 bytes.
    TooLong(u32),
    /// There was no memory for the list.
    OutOfMemory,
}

impl From<AllocError> for LexFault {
    ghost from_gives = { λ _ e. e ≡ OutOfMemory };

    fn from(_error: AllocError) -> LexFault {
        LexFault::OutOfMemory
    }
}

impl<T: Drop> From<AllocFailed<T>> for LexFault {
    ghost from_gives = { λ _ e. e ≡ OutOfMemory };

    fn from(_error: AllocFailed<T>) -> LexFault {
        LexFault::OutOfMemory
    }
}
