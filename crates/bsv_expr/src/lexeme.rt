ghost use Rattle.std.specs.Prelude.{◌≡◌, slice_range, map};
ghost use Rattle.bsv_expr.specs.Lexemes as spec;
ghost use Rattle.bsv_expr.specs.Expressions as grammar;
ghost use Rattle.bsv_expr.specs.Trees as trees;

use bsv_ast::Span;
use bsv_lex::Terminal;

/// A token as the grammar sees it: the word that it is, and where it stands.
#[derive(Clone, Copy, Debug, PartialEq, Eq)]
pub struct Lexeme {
    pub terminal: Terminal,
    pub span: Span,
}

/// Whether two words of the grammar are one.
#[tactic(auto, unfolding(crate::specs::Lexemes::same_terminal))]
pub fn same_terminal(a: Terminal, b: Terminal) -> bool
    ensures { result ≡ spec.same_terminal a b }
{
    a == b
}

/// Whether a word of the grammar is one of these.
pub fn is_in(set: &[Terminal], terminal: Terminal) -> bool
    ensures { result ≡ spec.is_in set.now terminal }
{
    set.iter().any(|word| same_terminal(terminal, *word))
}

/// Whether the next token, if there is one, is one of these words.
pub fn starts(set: &[Terminal], lexemes: &[Lexeme]) -> bool
    ensures { result ≡ spec.starts set.now lexemes.now }
{
    match lexemes {
        [] => false,
        [next, ..] => is_in(set, next.terminal),
    }
}

/// From the start of one place to the end of another.
pub fn to(start: Span, end: Span) -> Span
    ensures { result ≡ trees.to start end }
{
    Span {
        start: start.start,
        end: end.end,
    }
}

/// The bytes of a place in the source: those of it that the source has.
pub fn text(source: &[u8], span: Span) -> &[u8]
    ensures { result.now ≡ grammar.text source.now span }
{
    let start = (span.start as usize).min(source.len());
    let end = (span.end as usize).clamp(start, source.len());
    &source[start..end]
}
