ghost use Rattle.std.specs.Prelude.{◌≡◌, ◌≤◌};
ghost use Rattle.bsv_expr.specs.Brackets as brackets;
ghost use Rattle.bsv_parse.specs.Depths as spec;

use bsv_expr::{Lexeme, MAX_OPEN, is_in};
use bsv_lex::Terminal;

/// The words that open a bracket.
const OPENERS: [Terminal; 6] = [
    Terminal::OpenParen,
    Terminal::OpenAttribute,
    Terminal::OpenBracket,
    Terminal::OpenBrace,
    Terminal::Begin,
    Terminal::Case,
];

/// The words that close the innermost one.
const CLOSERS: [Terminal; 6] = [
    Terminal::CloseParen,
    Terminal::CloseAttribute,
    Terminal::CloseBracket,
    Terminal::CloseBrace,
    Terminal::End,
    Terminal::EndCase,
];

/// How many brackets are open after a token.
#[tactic(auto, unfolding(bsv_expr::specs::Brackets::open_after))]
fn open_after(count: usize, terminal: Terminal) -> usize
    requires { count ≤ 64 }
    ensures { result ≡ brackets.open_after count terminal }
{
    if is_in(&OPENERS, terminal) {
        count + 1
    } else if is_in(&CLOSERS, terminal) {
        count.saturating_sub(1)
    } else {
        count
    }
}

/// The byte at which the 65th bracket begins that is open at once, if there is one.
#[tactic(auto, using(crate::proofs::Deepest::deeper), unfolding(crate::specs::Depths::first_deep))]
pub fn first_deep(lexemes: &[Lexeme]) -> Option<u32>
    ensures { result ≡ spec.first_deep 0 lexemes.now }
{
    let mut count = 0;
    for lexeme in lexemes {
        count = open_after(count, lexeme.terminal);
        if count > MAX_OPEN {
            return Some(lexeme.span.start);
        }
    }
    None
}
