ghost use Rattle.std.specs.Prelude.{◌≡◌, ◌≤◌, ◌<◌, ◌^◌, ℕ, length, Err, IfOk};
ghost use Rattle.bsv_ast.specs.declared.expressions.Expr.{Expr as Tree};
ghost use Rattle.bsv_expr.specs.Lexemes as spec;
ghost use Rattle.bsv_expr.specs.Expression.{IsBetween, IsShallow};
ghost use Rattle.bsv_expr.specs.declared.extent.ExprFault.TheVariants.{OutOfMemory, Syntax};

use crate::fault::ReadFault;
use crate::lexeme::Lexeme;
use crate::reader::expr;
use bsv_ast::{Expr, Span};
use bsv_lex::{Token, terminal_of};
use std::alloc::{AllocError, AllocFailed, Global};

/// At most so many brackets are open at once.
pub const MAX_OPEN: usize = 64;

/// Why there is no expression.
#[derive(Clone, Copy, Debug, PartialEq, Eq)]
pub enum ExprFault {
    /// The byte at which the first token begins with which no expression goes on, or the end of the
    /// source.
    Syntax(u32),
    /// There was no memory for the tree.
    OutOfMemory,
}

impl From<AllocError> for ExprFault {
    ghost from_gives = { λ _ e. e ≡ OutOfMemory };

    fn from(_error: AllocError) -> ExprFault {
        ExprFault::OutOfMemory
    }
}

impl<T: Drop> From<AllocFailed<T>> for ExprFault {
    ghost from_gives = { λ _ e. e ≡ OutOfMemory };

    fn from(_error: AllocFailed<T>) -> ExprFault {
        ExprFault::OutOfMemory
    }
}

/// A token as the grammar sees it.
fn lexeme(source: &[u8], token: Token) -> Lexeme
    ensures { result ≡ spec.lexeme source.now token }
{
    let span = token.span();
    Lexeme {
        terminal: terminal_of(token.kind, crate::lexeme::text(source, span)),
        span,
    }
}

/// The tokens of a source as the grammar sees them.
#[tactic(auto, unfolding(crate::specs::Lexemes::lexemes))]
pub fn lexemes(alloc: Global, source: &[u8], tokens: &[Token]) -> Result<Vec<Lexeme>, AllocError>
    ensures { IfOk result (λ v. v.items ≡ spec.lexemes source.now tokens.now) }
{
    let mut out = Vec::new(alloc);
    for token in tokens {
        out.push(lexeme(source, *token))?;
    }
    Ok(out)
}

/// The byte at which the last tokens begin, of which there are so many, or the end of the source.
pub fn place(source: &[u8], tokens: &[Token], left: usize) -> u32
    requires limit { length source.now ≤ 1048576 }
    ensures { result ≡ spec.place source.now tokens.now left }
{
    match tokens.get(tokens.len().saturating_sub(left)) {
        Some(token) => token.start,
        None => source.len() as u32,
    }
}

/// The longest expression that begins at the token of this number, and the number of the token
/// after it.
///
/// `Syntax` comes exactly where the tokens from there on begin with no expression.
pub fn expression(
    alloc: Global,
    source: &[u8],
    tokens: &[Token],
    at: usize,
) -> Result<(Expr, usize), ExprFault>
    requires limit { length source.now ≤ 1048576 }
    requires within { at ≤ length tokens.now }
    requires shallow { IsShallow source.now tokens.now }
    ensures found { IfOk result (λ x. IsBetween source.now tokens.now at x.0 x.1) }
    ensures longest { IfOk result (λ x. (y : Tree) (next : ℕ)
        → IsBetween source.now tokens.now at y next → next ≤ x.1) }
    ensures one { IfOk result (λ x. (y : Tree) → IsBetween source.now tokens.now at y x.1
        → y ≡ x.0) }
    ensures syntax { (byte : ℕ) → result ≡ Err (Syntax byte) → (y : Tree) (next : ℕ)
        → IsBetween source.now tokens.now at y next → ⊥ }
{
    let lexemes = lexemes(alloc, source, tokens)?;
    let (_, rest) = lexemes.split_at(at);
    match expr(alloc, source, rest, MAX_OPEN + 1, true) {
        Ok((found, behind)) => Ok((found, tokens.len() - behind.len())),
        Err(ReadFault::Syntax(left)) => Err(ExprFault::Syntax(place(source, tokens, left))),
        Err(ReadFault::TooDeep) => Err(ExprFault::Syntax(place(source, tokens, rest.len()))),
        Err(ReadFault::OutOfMemory) => Err(ExprFault::OutOfMemory),
    }
}
