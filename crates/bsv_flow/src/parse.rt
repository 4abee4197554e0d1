ghost use Rattle.std.specs.Prelude.{◌≡◌, ℕ, List, codes, Ok, Err, IfOk};
ghost use Rattle.bsv_lex.specs.declared.token.LexFault.TheVariants as lexical;
ghost use Rattle.bsv_parse.specs.declared.answer.ParseFault.TheVariants.{OutOfMemory, Syntax, TooDeep};
ghost use Rattle.bsv_flow.specs.Positions as place;
ghost use Rattle.bsv_flow.specs.Yields.{Yields, most_bytes};
ghost use Rattle.bsv_flow.specs.declared.refusal.CompileFault.TheVariants.{Refused, ReadFault};
ghost use Rattle.bsv_flow.specs.declared.refusal.Refusal.{Refusal as TheRefusal};
ghost use Rattle.bsv_flow.specs.declared.refusal.Refusal.TheVariants as refusal;

use crate::position::position;
use crate::refusal::{CompileFault, Refusal};
use bsv_ast::Package;
use bsv_bits::Name;
use bsv_lex::{LexFault, tokens};
use bsv_parse::{ParseFault, package};
use std::alloc::Global;

/// A source has at most so many bytes.
const MAX_BYTES: usize = 1_048_576;

/// Why a source of this file has no tokens.
fn token_fault(alloc: Global, file: &[u8], source: &[u8], fault: LexFault) -> CompileFault
    ensures bad_byte { (at : ℕ) (r : TheRefusal) → fault ≡ lexical.BadByte at → result ≡ Refused r
        → r ≡ refusal.BadByte file.now (place.line source.now at) (place.column source.now at) }
    ensures open_comment { (at : ℕ) (r : TheRefusal) → fault ≡ lexical.OpenComment at
        → result ≡ Refused r
        → r ≡ refusal.OpenComment file.now (place.line source.now at) (place.column source.now at) }
    ensures bad_literal { (at : ℕ) (r : TheRefusal) → fault ≡ lexical.BadLiteral at
        → result ≡ Refused r
        → r ≡ refusal.BadLiteral file.now (place.line source.now at) (place.column source.now at) }
    ensures too_long { (at : ℕ) (r : TheRefusal) → fault ≡ lexical.TooLong at → result ≡ Refused r
        → r ≡ refusal.TooLong file.now (place.line source.now at) (place.column source.now at) }
    ensures no_memory { (r : TheRefusal) → fault ≡ lexical.OutOfMemory → result ≡ Refused r → ⊥ }
    ensures own { (name : List ℕ) → result ≡ ReadFault name → ⊥ }
{
    let Ok(file) = Name::new(alloc, file) else {
        return CompileFault::OutOfMemory;
    };
    match fault {
        LexFault::BadByte(at) => {
            let (line, column) = position(source, at);
            CompileFault::Refused(Refusal::BadByte(file, line, column))
        }
        LexFault::OpenComment(at) => {
            let (line, column) = position(source, at);
            CompileFault::Refused(Refusal::OpenComment(file, line, column))
        }
        LexFault::BadLiteral(at) => {
            let (line, column) = position(source, at);
            CompileFault::Refused(Refusal::BadLiteral(file, line, column))
        }
        LexFault::TooLong(at) => {
            let (line, column) = position(source, at);
            CompileFault::Refused(Refusal::TooLong(file, line, column))
        }
        LexFault::OutOfMemory => CompileFault::OutOfMemory,
    }
}

/// Why the tokens of a source of this file are no package.
fn tree_fault(alloc: Global, file: &[u8], source: &[u8], fault: ParseFault) -> CompileFault
    ensures syntax { (at : ℕ) (r : TheRefusal) → fault ≡ Syntax at → result ≡ Refused r
        → r ≡ refusal.Syntax file.now (place.line source.now at) (place.column source.now at) }
    ensures too_deep { (at : ℕ) (r : TheRefusal) → fault ≡ TooDeep at → result ≡ Refused r
        → r ≡ refusal.TooDeep file.now (place.line source.now at) (place.column source.now at) }
    ensures no_memory { (r : TheRefusal) → fault ≡ OutOfMemory → result ≡ Refused r → ⊥ }
    ensures own { (name : List ℕ) → result ≡ ReadFault name → ⊥ }
{
    let Ok(file) = Name::new(alloc, file) else {
        return CompileFault::OutOfMemory;
    };
    match fault {
        ParseFault::Syntax(at) => {
            let (line, column) = position(source, at);
            CompileFault::Refused(Refusal::Syntax(file, line, column))
        }
        ParseFault::TooDeep(at) => {
            let (line, column) = position(source, at);
            CompileFault::Refused(Refusal::TooDeep(file, line, column))
        }
        ParseFault::OutOfMemory => CompileFault::OutOfMemory,
    }
}

/// The limit that a source with too many bytes passes.
fn too_large(alloc: Global) -> CompileFault
    ensures refused { (r : TheRefusal) → result ≡ Refused r
        → r ≡ refusal.Limit (codes "source") most_bytes }
    ensures own { (name : List ℕ) → result ≡ ReadFault name → ⊥ }
{
    match Name::new(alloc, b"source") {
        Ok(kind) => CompileFault::Refused(Refusal::Limit(kind, MAX_BYTES as u64)),
        Err(_) => CompileFault::OutOfMemory,
    }
}

/// The package that a source of this file is.
pub(crate) fn package_of(alloc: Global, file: &[u8], source: &[u8]) -> Result<Package, CompileFault>
    ensures found { IfOk result (λ x. Yields file.now source.now (Ok x)) }
    ensures refused { (r : TheRefusal) → result ≡ Err (Refused r)
        → Yields file.now source.now (Err r) }
    ensures own { (name : List ℕ) → result ≡ Err (ReadFault name) → ⊥ }
{
    if source.len() > MAX_BYTES {
        return Err(too_large(alloc));
    }
    let tokens = match tokens(alloc, source) {
        Ok(tokens) => tokens,
        Err(fault) => return Err(token_fault(alloc, file, source, fault)),
    };
    match package(alloc, source, tokens.as_slice()) {
        Ok(found) => Ok(found),
        Err(fault) => Err(tree_fault(alloc, file, source, fault)),
    }
}
