ghost use Rattle.std.specs.Prelude.{◌≡◌, ◌⊎◌, ◌≤◌, ℕ, List, length, Ok, Err, IfOk, OnOk};
ghost use Rattle.bsv_ast.specs.declared.package.Package.{Package as Tree};
ghost use Rattle.bsv_lex.specs.declared.token.Token.{Token as Word};
ghost use Rattle.bsv_expr.specs.Expression.{IsShallow};
ghost use Rattle.bsv_expr.specs.Reading.{Gives};
ghost use Rattle.bsv_parse.specs.Reads as spec;
ghost use Rattle.bsv_parse.specs.Reads.{Reads, IsTooDeep};
ghost use Rattle.bsv_parse.specs.declared.answer.ParseFault.TheVariants.{OutOfMemory, Syntax, TooDeep};

use crate::depth::first_deep;
use crate::items::file;
use bsv_ast::Package;
use bsv_expr::{Lexeme, MAX_OPEN, ReadFault, lexemes, place, refusal};
use bsv_lex::Token;
use std::alloc::{AllocError, AllocFailed, Global};

/// Why there is no package.
#[derive(Clone, Copy, Debug, PartialEq, Eq)]
pub enum ParseFault {
    /// The byte at which the first token begins with which no package goes on, or the end of the
    /// source.
    Syntax(u32),
    /// The byte at which the 65th bracket begins that is open at once.
    TooDeep(u32),
    /// There was no memory for the tree.
    OutOfMemory,
}

impl From<AllocError> for ParseFault {
    ghost from_gives = { λ _ e. e ≡ OutOfMemory };

    fn from(_error: AllocError) -> ParseFault {
        ParseFault::OutOfMemory
    }
}

impl<T: Drop> From<AllocFailed<T>> for ParseFault {
    ghost from_gives = { λ _ e. e ≡ OutOfMemory };

    fn from(_error: AllocFailed<T>) -> ParseFault {
        ParseFault::OutOfMemory
    }
}

/// So many brackets and blocks at most are open at once in the parts of a file: the statements of
/// its modules and those of their rules are counted as if they was in a block.
const MAX_DEPTH: usize = MAX_OPEN + 3;

/// The file that all these tokens are.
#[tactic(auto, unfolding(crate::specs::Reads::whole))]
fn whole(alloc: Global, source: &[u8], lexemes: &[Lexeme]) -> Result<Package, ReadFault>
    ensures { Gives (λ x. x) result (spec.whole source.now lexemes.now) }
{
    let (found, behind) = file(alloc, source, lexemes, MAX_DEPTH)?;
    if behind.is_empty() {
        Ok(found)
    } else {
        Err(refusal(behind))
    }
}

/// The package that the tokens of a source are.
///
/// `TooDeep` comes exactly where more than 64 brackets are open at once, and `Syntax` exactly where
/// no more are and the tokens are no package.
pub fn package(alloc: Global, source: &[u8], tokens: &[Token]) -> Result<Package, ParseFault>
    requires limit { length source.now ≤ 1048576 }
    ensures found { IfOk result (λ x. Reads source.now tokens.now x) }
    ensures shallow { OnOk result (IsShallow source.now tokens.now) }
    ensures only { (x : Tree) → Reads source.now tokens.now x → IsShallow source.now tokens.now
        → (result ≡ Ok x) ⊎ (result ≡ Err OutOfMemory) }
    ensures deep { (at : ℕ) → result ≡ Err (TooDeep at) → IsTooDeep source.now tokens.now at }
    ensures too_deep { (at : ℕ) → IsTooDeep source.now tokens.now at
        → (result ≡ Err (TooDeep at)) ⊎ (result ≡ Err OutOfMemory) }
    ensures syntax { (at : ℕ) → result ≡ Err (Syntax at) → (x : Tree)
        → Reads source.now tokens.now x → ⊥ }
    ensures syntax_shallow { (at : ℕ) → result ≡ Err (Syntax at) → IsShallow source.now tokens.now }
{
    let lexemes = lexemes(alloc, source, tokens)?;
    if let Some(at) = first_deep(lexemes.as_slice()) {
        return Err(ParseFault::TooDeep(at));
    }
    match whole(alloc, source, lexemes.as_slice()) {
        Ok(found) => Ok(found),
        Err(ReadFault::Syntax(left)) => Err(ParseFault::Syntax(place(source, tokens, left))),
        Err(ReadFault::TooDeep) => unreachable!(),
        Err(ReadFault::OutOfMemory) => Err(ParseFault::OutOfMemory),
    }
}

/// The tokens of a source are one package at most.
pub fn one_package()
    ensures { (source : List ℕ) (tokens : List Word) (x y : Tree) → Reads source tokens x
        → Reads source tokens y → x ≡ y }
{}
