ghost use Rattle.std.specs.Prelude.{◌≡◌, ◌+◌, ◌<◌, ◌≤◌, ◌^◌, length, slice_index, IfSome};
ghost use Rattle.std.specs.Char.{is_ascii_alphanumeric, is_ascii_uppercase};
ghost use Rattle.std.specs.List.{prefix_len};
ghost use Rattle.bsv_ast.specs.Names as names_spec;
ghost use Rattle.bsv_lex.specs.Bytes as bytes_spec;
ghost use Rattle.bsv_lex.specs.Numbers as numbers;
ghost use Rattle.bsv_lex.specs.Reading as spec;
ghost use Rattle.bsv_lex.specs.Tokens as tokens_spec;

use crate::number::{base_of, continues, decimal_len, literal};
use crate::terminal::{keyword, symbol};
use crate::token::{LexFault, TokenKind};
use bsv_ast::{Base, begins_name, is_word};

/// Why no token is at a place.
#[derive(Clone, Copy, Debug, PartialEq, Eq)]
pub enum Flaw {
    BadByte,
    OpenComment,
    BadLiteral,
    TooLong,
}

/// What is at a place.
#[derive(Clone, Copy, Debug, PartialEq, Eq)]
pub enum Lexed {
    /// A blank or a comment.
    Gap,
    Token(TokenKind),
    Fault(Flaw),
}

impl Flaw {
    /// The fault of the flaw at this place.
    pub(crate) fn at(self, place: u32) -> LexFault
        ensures { result ≡ tokens_spec.fault_at self place }
    {
        match self {
            Flaw::BadByte => LexFault::BadByte(place),
            Flaw::OpenComment => LexFault::OpenComment(place),
            Flaw::BadLiteral => LexFault::BadLiteral(place),
            Flaw::TooLong => LexFault::TooLong(place),
        }
    }
}

fn is_blank(b: u8) -> bool
    ensures { result ≡ bytes_spec.is_blank b }
{
    b == b' ' || b == b'\t' || b == b'\r' || b == b'\n' || b == b'\x0c'
}

fn in_text(b: u8) -> bool
    ensures { result ≡ bytes_spec.in_text b }
{
    b' ' <= b && b <= b'~' && !(b == b'"' || b == b'\\')
}

/// How many bytes at the front go on with a name.
fn word_len(bytes: &[u8]) -> usize
    ensures value { result ≡ prefix_len names_spec.is_word bytes.now }
    ensures within { result ≤ length bytes.now }
{
    bytes.iter().take_while(|b| is_word(**b)).count()
}

/// How many bytes there are up to the end of the line.
fn line_len(bytes: &[u8]) -> usize
    ensures value { result ≡ prefix_len bytes_spec.in_line bytes.now }
    ensures within { result ≤ length bytes.now }
{
    bytes.iter().take_while(|b| **b != b'\n').count()
}

/// How many bytes at the front may be in a text.
fn text_len(bytes: &[u8]) -> usize
    ensures value { result ≡ prefix_len bytes_spec.in_text bytes.now }
    ensures within { result ≤ length bytes.now }
{
    bytes.iter().take_while(|b| in_text(**b)).count()
}

/// How many bytes at the front are digits of the base or `_`.
fn digits_len(base: Base, bytes: &[u8]) -> usize
    ensures value { result ≡ prefix_len (numbers.continues base) bytes.now }
    ensures within { result ≤ length bytes.now }
{
    bytes.iter().take_while(|b| continues(base, **b)).count()
}

/// A name or a number of this length.
fn short(kind: TokenKind, len: usize) -> Lexed
    ensures { result ≡ tokens_spec.short kind len }
{
    if len <= 255 {
        Lexed::Token(kind)
    } else {
        Lexed::Fault(Flaw::TooLong)
    }
}

fn begins_upper(text: &[u8]) -> bool
    ensures { result ≡ bytes_spec.first_is is_ascii_uppercase text.now }
{
    match text {
        [] => false,
        [b, ..] => b.is_ascii_uppercase(),
    }
}

fn name_kind(text: &[u8]) -> TokenKind
    ensures { result ≡ tokens_spec.name_kind text.now }
{
    if keyword(text).is_some() {
        TokenKind::Keyword
    } else if begins_upper(text) {
        TokenKind::Upper
    } else {
        TokenKind::Lower
    }
}

#[tactic(auto, unfolding(crate::specs::Reading::name_at))]
fn name_at(bytes: &[u8]) -> (Lexed, usize)
    ensures value { result ≡ spec.name_at bytes.now }
    ensures within { result.1 ≤ length bytes.now }
{
    let len = word_len(bytes);
    (short(name_kind(&bytes[..len]), len), len)
}

/// The base that a `'` and a letter at the front name.
fn base_at(bytes: &[u8]) -> Option<Base>
    ensures value { result ≡ tokens_spec.base_at bytes.now }
    ensures within { IfSome result (λ base. 2 ≤ length bytes.now) }
{
    match bytes {
        [b'\'', letter, ..] => base_of(*letter),
        _ => None,
    }
}

/// How many bytes a base and its digits take at the front.
fn base_len(bytes: &[u8]) -> usize
    requires { length bytes.now < 2 ^ 32 }
    ensures value { result ≡ spec.base_len (tokens_spec.base_at bytes.now) bytes.now }
    ensures within { result ≤ length bytes.now }
{
    match base_at(bytes) {
        None => 0,
        Some(base) => 2 + digits_len(base, &bytes[2..]),
    }
}

/// How many bytes a number at the front goes on for.
fn number_len(bytes: &[u8]) -> usize
    requires { length bytes.now < 2 ^ 32 }
    ensures value { result ≡ spec.number_len bytes.now }
    ensures within { result ≤ length bytes.now }
{
    let front = decimal_len(bytes);
    front + base_len(&bytes[front..])
}

fn goes_on(bytes: &[u8]) -> bool
    ensures { result ≡ bytes_spec.first_is is_ascii_alphanumeric bytes.now }
{
    match bytes {
        [] => false,
        [b, ..] => b.is_ascii_alphanumeric(),
    }
}

/// A number of this text with these bytes after it.
fn number_piece(text: &[u8], rest: &[u8]) -> Lexed
    ensures { result ≡ tokens_spec.number_piece text.now rest.now }
{
    match literal(text) {
        None => Lexed::Fault(Flaw::BadLiteral),
        Some(number) => {
            if number.base.is_some() && goes_on(rest) {
                Lexed::Fault(Flaw::BadLiteral)
            } else {
                short(TokenKind::Number, text.len())
            }
        }
    }
}

#[tactic(auto, unfolding(crate::specs::Reading::number_at))]
fn number_at(bytes: &[u8]) -> (Lexed, usize)
    requires { length bytes.now < 2 ^ 32 }
    ensures value { result ≡ spec.number_at bytes.now }
    ensures within { result.1 ≤ length bytes.now }
{
    let len = number_len(bytes);
    (number_piece(&bytes[..len], &bytes[len..]), len)
}

fn is_closed(bytes: &[u8]) -> bool
    ensures { result ≡ bytes_spec.first_is tokens_spec.is_quote bytes.now }
{
    match bytes {
        [] => false,
        [b, ..] => *b == b'"',
    }
}

/// A text, from the byte after the quote that opens it.
#[tactic(auto, unfolding(crate::specs::Reading::text_at))]
fn text_at(bytes: &[u8]) -> (Lexed, usize)
    requires { length bytes.now < 2 ^ 32 }
    ensures value { result ≡ spec.text_at bytes.now }
    ensures within { result.1 ≤ length bytes.now + 1 }
{
    let len = text_len(bytes);
    if is_closed(&bytes[len..]) {
        (Lexed::Token(TokenKind::Text), len + 2)
    } else {
        (Lexed::Fault(Flaw::BadLiteral), len + 1)
    }
}

fn is_slash(bytes: &[u8]) -> bool
    ensures { result ≡ bytes_spec.first_is tokens_spec.is_slash bytes.now }
{
    match bytes {
        [] => false,
        [b, ..] => *b == b'/',
    }
}

/// The place after the first `*/`, counted from the front.
fn close_of(bytes: &[u8]) -> Option<usize>
    requires { length bytes.now < 2 ^ 32 }
    ensures value { result ≡ spec.close_from 0 bytes.now }
    ensures within { IfSome result (λ end. end ≤ length bytes.now) }
{
    let mut at = 0;
    let mut left = bytes;
    while let [b, rest @ ..] = left {
        if *b == b'*' && is_slash(rest) {
            return Some(at + 2);
        }
        at += 1;
        left = rest;
    }
    None
}

/// A comment that is to be closed, from the byte after `/*` on.
fn comment_at(bytes: &[u8]) -> (Lexed, usize)
    requires { length bytes.now < 2 ^ 32 }
    ensures value { result ≡ spec.comment_by (spec.close_from 0 bytes.now) bytes.now }
    ensures within { result.1 ≤ length bytes.now + 2 }
{
    match close_of(bytes) {
        None => (Lexed::Fault(Flaw::OpenComment), 2 + bytes.len()),
        Some(end) => (Lexed::Gap, 2 + end),
    }
}

/// What begins with `/`, from the byte after it on.
#[tactic(auto, unfolding(crate::specs::Reading::slash_at))]
fn slash_at(bytes: &[u8]) -> (Lexed, usize)
    requires { length bytes.now < 2 ^ 32 }
    ensures value { result ≡ spec.slash_at bytes.now }
    ensures within { result.1 ≤ length bytes.now + 1 }
{
    match bytes {
        [b'/', line @ ..] => (Lexed::Gap, 2 + line_len(line)),
        [b'*', inner @ ..] => comment_at(inner),
        _ => (Lexed::Fault(Flaw::BadByte), 1),
    }
}

fn one_byte(bytes: &[u8]) -> (Lexed, usize)
    requires { 0 < length bytes.now }
    ensures { result ≡ spec.one_byte (slice_index bytes.now 0) }
{
    if symbol(&bytes[..1]).is_some() {
        (Lexed::Token(TokenKind::Symbol), 1)
    } else {
        (Lexed::Fault(Flaw::BadByte), 1)
    }
}

fn symbol_at(bytes: &[u8]) -> (Lexed, usize)
    requires { 0 < length bytes.now }
    ensures value { result ≡ spec.symbol_at bytes.now }
    ensures within { result.1 ≤ length bytes.now }
{
    if bytes.len() >= 2 && symbol(&bytes[..2]).is_some() {
        (Lexed::Token(TokenKind::Symbol), 2)
    } else {
        one_byte(bytes)
    }
}

fn begins_number(bytes: &[u8]) -> bool
    ensures { result ≡ tokens_spec.begins_number bytes.now }
{
    match bytes {
        [] => false,
        [b, ..] => b.is_ascii_digit() || base_at(bytes).is_some(),
    }
}

/// What is at the front, and how many bytes it takes; None at the end.
#[tactic(auto, unfolding(crate::specs::Reading::piece_at))]
pub(crate) fn piece_at(bytes: &[u8]) -> Option<(Lexed, usize)>
    requires { length bytes.now < 2 ^ 32 }
    ensures value { result ≡ spec.piece_at bytes.now }
    ensures within { IfSome result (λ x. x.1 ≤ length bytes.now) }
{
    match bytes {
        [] => None,
        [b, rest @ ..] => Some(if is_blank(*b) {
            (Lexed::Gap, 1)
        } else if begins_name(*b) {
            name_at(bytes)
        } else if *b == b'"' {
            text_at(rest)
        } else if *b == b'/' {
            slash_at(rest)
        } else if begins_number(bytes) {
            number_at(bytes)
        } else {
            symbol_at(bytes)
        }),
    }
}
