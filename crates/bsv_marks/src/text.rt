use bsv_bits::OutOfMemory;
use bsv_lex::{Terminal, Token, TokenKind, terminal_of, tokens};
use std::alloc::Global;

/// How many bytes a source has at most.
const MAX_BYTES: usize = 1_048_576;

/// A source with its tokens. A place among the tokens that has none reads as an empty word.
#[derive(Clone, Copy)]
pub struct Text<'a> {
    /// The name of its file.
    pub file: &'a [u8],
    pub bytes: &'a [u8],
    pub tokens: &'a [Token],
}

/// Some tokens of a source: those from a place on, up to and without another.
#[derive(Clone, Copy)]
pub struct Extent {
    pub from: usize,
    pub to: usize,
}

/// A source whose tokens are kept.
#[derive(Drop)]
pub struct Source<'a> {
    file: &'a [u8],
    bytes: &'a [u8],
    tokens: Vec<Token>,
}

impl<'a> Source<'a> {
    /// The source of a file. It is without tokens where it has none.
    pub fn new(alloc: Global, file: &'a [u8], bytes: &'a [u8]) -> Result<Source<'a>, OutOfMemory> {
        let found = if bytes.len() <= MAX_BYTES {
            tokens(alloc, bytes).ok()
        } else {
            None
        };
        Ok(Source {
            file,
            bytes,
            tokens: match found {
                Some(tokens) => tokens,
                None => Vec::new(alloc),
            },
        })
    }

    /// The source with its tokens.
    pub fn text(&self) -> Text<'_> {
        Text {
            file: self.file,
            bytes: self.bytes,
            tokens: self.tokens.as_slice(),
        }
    }
}

/// The bytes from the first place up to the second, as far as there are such.
pub(crate) fn piece(bytes: &[u8], start: usize, end: usize) -> &[u8] {
    let end = bytes.len().min(end);
    let start = end.min(start);
    &bytes[start..end]
}

impl<'a> Text<'a> {
    /// The word of the token at a place.
    pub fn word(self, at: usize) -> &'a [u8] {
        match self.tokens.get(at) {
            Some(token) => piece(self.bytes, token.start as usize, token.end as usize),
            None => b"",
        }
    }

    /// Whether the token at a place is this word.
    pub fn is(self, at: usize, word: &[u8]) -> bool {
        self.word(at) == word
    }

    /// What the token at a place is, in the words of the tables of usual causes.
    pub(crate) fn class(self, at: usize) -> &'static [u8] {
        let Some(token) = self.tokens.get(at) else {
            return b"NOTHING";
        };
        match token.kind {
            TokenKind::Lower => b"NAME",
            TokenKind::Upper => b"TYPE",
            TokenKind::Number => b"NUMBER",
            TokenKind::Text => b"TEXT",
            TokenKind::Symbol => b"SYMBOL",
            TokenKind::Keyword => match terminal_of(token.kind, self.word(at)) {
                Terminal::Reserved => b"RESERVED",
                _ => b"KEYWORD",
            },
        }
    }

    /// The byte at which the token at a place begins; the end of the source where there is none.
    pub fn start(self, at: usize) -> usize {
        match self.tokens.get(at) {
            Some(token) => token.start as usize,
            None => self.bytes.len(),
        }
    }

    /// All tokens.
    pub fn whole(self) -> Extent {
        Extent {
            from: 0,
            to: self.tokens.len(),
        }
    }

    /// The first place among some tokens that has the word; the end of them where none has.
    pub(crate) fn find(self, extent: Extent, word: &[u8]) -> usize {
        for at in extent.from..extent.to {
            if self.word(at) == word {
                return at;
            }
        }
        extent.to
    }
}
