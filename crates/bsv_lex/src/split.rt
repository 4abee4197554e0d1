ghost use Rattle.std.specs.Prelude.{◌≡◌, ◌+◌, ◌<◌, ◌≤◌, ◌^◌, ◌≢◌, ◌⊎◌, ℕ, List, length, Ok, Err, IfOk, IfErr, All};
ghost use Rattle.bsv_lex.specs.Reading as spec;
ghost use Rattle.bsv_lex.specs.Tokens.{Tokens, FirstFault, Gives, IsTokenOf};
ghost use Rattle.bsv_lex.specs.declared.token.LexFault.{LexFault as Fault};
ghost use Rattle.bsv_lex.specs.declared.token.LexFault.TheVariants.{OutOfMemory};
ghost use Rattle.bsv_lex.specs.declared.token.Token.{Token as Item};

use crate::piece::{Lexed, piece_at};
use crate::token::{LexFault, Token};
use std::alloc::Global;

/// Adds the piece that is at a place, if it is a token, to the list; a flaw is the answer.
fn put(out: &mut Vec<Token>, piece: Lexed, at: usize, len: usize) -> Result<(), LexFault>
    requires { at + len < 2 ^ 32 }
    ensures { Gives (λ done. out.new.items) result (spec.with_piece piece at len out.old.items) }
{
    match piece {
        Lexed::Gap => {}
        Lexed::Token(kind) => out.push(Token {
            kind,
            start: at as u32,
            end: (at + len) as u32,
        })?,
        Lexed::Fault(flaw) => return Err(flaw.at(at as u32)),
    }
    Ok(())
}

/// The tokens, piece by piece.
#[tactic(auto, using(crate::proofs::Turns::turns), unfolding(crate::specs::Reading::tokens_of, crate::specs::Reading::tokens_from))]
fn read_all(alloc: Global, source: &[u8]) -> Result<Vec<Token>, LexFault>
    requires { length source.now < 2 ^ 32 }
    ensures { Gives (λ v. v.items) result (spec.tokens_of source.now) }
{
    let mut out = Vec::new(alloc);
    let mut at = 0;
    let mut rest = source;
    for _turn in 0..source.len() {
        let Some((piece, len)) = piece_at(rest) else {
            return Ok(out);
        };
        put(&mut out, piece, at, len)?;
        at += len;
        let (_, after) = rest.split_at(len);
        rest = after;
    }
    Ok(out)
}

/// The tokens of a source of at most 1,048,576 bytes, in order. Where the source breaks the rules,
/// the answer is the fault of the first place that does; a number that is too long and malformed is
/// a `BadLiteral`.
pub fn tokens(alloc: Global, source: &[u8]) -> Result<Vec<Token>, LexFault>
    requires { length source.now ≤ 1048576 }
    ensures found { IfOk result (λ v. Tokens source.now v.items) }
    ensures only { (list : List Item) → Tokens source.now list
        → Gives (λ v. v.items) result (Ok list) }
    ensures slices { IfOk result (λ v. All (IsTokenOf source.now) v.items) }
    ensures faulty { IfErr result (λ f. f ≢ OutOfMemory → FirstFault source.now f) }
    ensures fault { (f : Fault) → FirstFault source.now f → Gives (λ v. v.items) result (Err f) }
{
    read_all(alloc, source)
}

/// A source has one list of tokens or one first fault, and not both.
pub fn one_answer()
    ensures list { (bytes : List ℕ) (x y : List Item) → Tokens bytes x → Tokens bytes y → x ≡ y }
    ensures fault { (bytes : List ℕ) (f g : Fault) → FirstFault bytes f → FirstFault bytes g
        → f ≡ g }
    ensures apart { (bytes : List ℕ) (x : List Item) (f : Fault) → Tokens bytes x
        → FirstFault bytes f → ⊥ }
    ensures some { (bytes : List ℕ) → ((list : List Item) × Tokens bytes list)
        ⊎ ((f : Fault) × FirstFault bytes f) }
{}
