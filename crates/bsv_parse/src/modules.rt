ghost use Rattle.std.specs.Prelude.{◌≡◌, IfOk, [], ◌∷◌, false, length};
ghost use Rattle.bsv_lex.specs.declared.terminal.Terminal.TheVariants as word;
ghost use Rattle.bsv_expr.specs.Expressions.{always, snoc};
ghost use Rattle.bsv_expr.specs.Reading.{Gives, turns};
ghost use Rattle.bsv_parse.specs.Modules as grammar;
ghost use Rattle.bsv_parse.specs.Modules.{within};
ghost use Rattle.bsv_parse.specs.ModuleTrees as trees;
ghost use Rattle.bsv_parse.specs.Places.{part};
ghost use Rattle.bsv_parse.specs.Definitions as definitions;

use crate::attributes::{groups, start_of};
use crate::bodies::{asked, ending};
use crate::params::params;
use crate::rules::{method, rule};
use crate::simple_module::simple;
use bsv_ast::{Boxed, Head, Items, Module, ModuleBranch, ModuleStmt, Param, Span, WrittenType};
use bsv_blocks::{head, written};
use bsv_expr::{Lexeme, ReadFault, expect, name, starts, to};
use bsv_lex::Terminal;
use std::alloc::{AllocError, Global};

/// The words with which a statement of a module begins.
const MSTMT_FIRST: [Terminal; 10] = [
    Terminal::Upper,
    Terminal::Int,
    Terminal::Let,
    Terminal::Lower,
    Terminal::Begin,
    Terminal::If,
    Terminal::For,
    Terminal::OpenAttribute,
    Terminal::Rule,
    Terminal::Method,
];

/// The branches of an `if` so far, where they stand, and the arm after a last `else`.
#[derive(Drop)]
pub struct ModuleBranches {
    pub span: Span,
    pub branches: Items<ModuleBranch>,
    pub otherwise: Option<ModuleStmt>,
}

/// What comes after an `else`.
#[derive(Drop)]
pub enum ModuleElse {
    /// `"if" "(" expr ")" marm`
    If(ModuleBranch),
    /// `marm`
    Last(ModuleStmt),
}

/// The `if` of these branches.
fn if_of(alloc: Global, found: ModuleBranches) -> Result<ModuleStmt, AllocError>
    ensures { IfOk result (λ x. x ≡ trees.if_of found) }
{
    let ModuleBranches {
        span,
        branches,
        otherwise,
    } = found;
    let otherwise = boxed(alloc, otherwise)?;
    Ok(ModuleStmt::If(span, branches, otherwise))
}

/// A statement, if there is one, in a box.
fn boxed(alloc: Global, found: Option<ModuleStmt>) -> Result<Option<Boxed<ModuleStmt>>, AllocError>
    ensures { IfOk result (λ x. x ≡ found) }
{
    match found {
        None => Ok(None),
        Some(stmt) => Ok(Some(Boxed::new(alloc, stmt)?)),
    }
}

/// The loop of this head and this body.
fn for_of(alloc: Global, head: Boxed<Head>, body: ModuleStmt) -> Result<ModuleStmt, AllocError>
    ensures { IfOk result (λ x. x ≡ trees.for_of head body) }
{
    let span = to(head.get().span, body.span());
    let body = Boxed::new(alloc, body)?;
    Ok(ModuleStmt::For(span, head.into_inner(), body))
}

/// A statement of a module in which fewer than `depth` blocks are open at once.
#[cycle(modules)]
#[tactic(auto, unfolding(crate::specs::Modules::mstmt))]
fn mstmt<'a>(
    alloc: Global,
    source: &[u8],
    lexemes: &'a [Lexeme],
    depth: usize,
) -> Result<(ModuleStmt, &'a [Lexeme]), ReadFault>
    ensures { Gives (λ x. (x.0, x.1.now)) result (grammar.mstmt source.now depth lexemes.now) }
{
    if depth == 0 {
        return Err(ReadFault::TooDeep);
    }
    mstmt_body(alloc, source, lexemes, depth - 1)
}

/// A statement in a block.
#[cycle(modules)]
#[tactic(auto, unfolding(crate::specs::Modules::nested, crate::specs::Modules::inner, bsv_expr::specs::Reading::read))]
fn nested<'a>(
    alloc: Global,
    source: &[u8],
    lexemes: &'a [Lexeme],
    depth: usize,
) -> Result<(ModuleStmt, &'a [Lexeme]), ReadFault>
    ensures { Gives (λ x. (x.0, x.1.now)) result
        (within source.now depth grammar.nested lexemes.now) }
{
    mstmt(alloc, source, lexemes, depth)
}

/// The statements that are here, one after the other.
#[cycle(modules)]
#[tactic(auto, using(bsv_expr::proofs::Turns::turns_of), unfolding(crate::specs::Modules::mstmt_first))]
fn repeated<'a>(
    alloc: Global,
    source: &[u8],
    lexemes: &'a [Lexeme],
    depth: usize,
) -> Result<(Items<ModuleStmt>, &'a [Lexeme]), ReadFault>
    ensures { Gives (λ x. (x.0, x.1.now)) result (turns false grammar.mstmt_first always snoc
        (within source.now depth grammar.nested) (length lexemes.now) [] lexemes.now) }
{
    let mut found = Items::new(alloc);
    let mut rest = lexemes;
    for _turn in 0..lexemes.len() {
        if !starts(&MSTMT_FIRST, rest) {
            return Ok((found, rest));
        }
        let (next, after) = nested(alloc, source, rest, depth)?;
        found.push(next)?;
        rest = after;
    }
    Ok((found, rest))
}

/// `{ mstmt }`
#[cycle(modules)]
#[tactic(auto, unfolding(crate::specs::Modules::mstmts, bsv_expr::specs::Reading::read))]
fn mstmts<'a>(
    alloc: Global,
    source: &[u8],
    lexemes: &'a [Lexeme],
    depth: usize,
) -> Result<(Items<ModuleStmt>, &'a [Lexeme]), ReadFault>
    ensures { Gives (λ x. (x.0, x.1.now)) result
        (within source.now depth grammar.mstmts lexemes.now) }
{
    repeated(alloc, source, lexemes, depth)
}

/// `"begin" { mstmt } "end"`
#[cycle(modules)]
#[tactic(auto, unfolding(crate::specs::Modules::block, bsv_expr::specs::Reading::read))]
fn block<'a>(
    alloc: Global,
    source: &[u8],
    lexemes: &'a [Lexeme],
    depth: usize,
) -> Result<(ModuleStmt, &'a [Lexeme]), ReadFault>
    ensures { Gives (λ x. (x.0, x.1.now)) result
        (within source.now depth grammar.block lexemes.now) }
{
    let (open, rest) = expect(Terminal::Begin, lexemes)?;
    let (found, rest) = mstmts(alloc, source, rest, depth)?;
    let (close, rest) = expect(Terminal::End, rest)?;
    Ok((ModuleStmt::Block(to(open, close), found), rest))
}

/// `rule`
#[tactic(auto, unfolding(crate::specs::Modules::ruled, crate::specs::Modules::inner, bsv_expr::specs::Reading::read))]
fn ruled<'a>(
    alloc: Global,
    source: &[u8],
    lexemes: &'a [Lexeme],
    depth: usize,
) -> Result<(ModuleStmt, &'a [Lexeme]), ReadFault>
    ensures { Gives (λ x. (x.0, x.1.now)) result
        (within source.now depth grammar.ruled lexemes.now) }
{
    let (found, rest) = rule(alloc, source, lexemes, depth)?;
    Ok((ModuleStmt::Rule(found.span, found), rest))
}

/// `mblock | rule | msimple`
#[cycle(modules)]
#[tactic(auto, unfolding(crate::specs::Modules::arm, crate::specs::Modules::inner, bsv_expr::specs::Reading::read))]
fn arm<'a>(
    alloc: Global,
    source: &[u8],
    lexemes: &'a [Lexeme],
    depth: usize,
) -> Result<(ModuleStmt, &'a [Lexeme]), ReadFault>
    ensures { Gives (λ x. (x.0, x.1.now)) result (within source.now depth grammar.arm lexemes.now) }
{
    if starts(&[Terminal::Begin], lexemes) {
        return block(alloc, source, lexemes, depth);
    }
    if starts(&[Terminal::OpenAttribute, Terminal::Rule], lexemes) {
        return ruled(alloc, source, lexemes, depth);
    }
    simple(alloc, source, lexemes, depth)
}

/// `"if" "(" expr ")" marm`
#[cycle(modules)]
#[tactic(auto, unfolding(crate::specs::Modules::branch, crate::specs::Modules::inner, bsv_expr::specs::Reading::read))]
fn branch<'a>(
    alloc: Global,
    source: &[u8],
    lexemes: &'a [Lexeme],
    depth: usize,
) -> Result<(ModuleBranch, &'a [Lexeme]), ReadFault>
    ensures { Gives (λ x. (x.0, x.1.now)) result
        (within source.now depth grammar.branch lexemes.now) }
{
    let (start, rest) = expect(Terminal::If, lexemes)?;
    let (condition, rest) = asked(alloc, source, rest, depth)?;
    let condition = Boxed::new(alloc, condition)?;
    let (arm, rest) = arm(alloc, source, rest, depth)?;
    let span = to(start, arm.span());
    let branch = ModuleBranch {
        span,
        condition: condition.into_inner(),
        arm,
    };
    Ok((branch, rest))
}

/// `"else"`, and one more branch or the last arm.
#[cycle(modules)]
#[tactic(auto, unfolding(crate::specs::Modules::else_part, bsv_expr::specs::Reading::read))]
fn else_part<'a>(
    alloc: Global,
    source: &[u8],
    lexemes: &'a [Lexeme],
    depth: usize,
) -> Result<(ModuleElse, &'a [Lexeme]), ReadFault>
    ensures { Gives (λ x. (x.0, x.1.now)) result
        (within source.now depth grammar.else_part lexemes.now) }
{
    let (_, rest) = expect(Terminal::Else, lexemes)?;
    if starts(&[Terminal::If], rest) {
        let (found, rest) = branch(alloc, source, rest, depth)?;
        return Ok((ModuleElse::If(found), rest));
    }
    let (last, rest) = arm(alloc, source, rest, depth)?;
    Ok((ModuleElse::Last(last), rest))
}

/// What comes after the first branch: `{ "else" "if" "(" expr ")" marm } [ "else" marm ]`.
#[cycle(modules)]
#[tactic(auto, using(bsv_expr::proofs::Turns::turns_of, crate::proofs::Closed::turns_closed))]
fn else_parts<'a>(
    alloc: Global,
    source: &[u8],
    first: ModuleBranch,
    lexemes: &'a [Lexeme],
    depth: usize,
) -> Result<(ModuleBranches, &'a [Lexeme]), ReadFault>
    ensures { Gives (λ x. (x.0, x.1.now)) result
        (turns false (word.Else ∷ []) trees.is_open trees.with_else
        (within source.now depth grammar.else_part) (length lexemes.now)
        (trees.one_branch first) lexemes.now) }
{
    let mut span = first.span;
    let mut branches = Items::new(alloc);
    branches.push(first)?;
    let mut rest = lexemes;
    for _turn in 0..lexemes.len() {
        if !starts(&[Terminal::Else], rest) {
            return Ok((closed(span, branches, None), rest));
        }
        let (part, after) = else_part(alloc, source, rest, depth)?;
        rest = after;
        match part {
            ModuleElse::If(next) => {
                span = to(span, next.span);
                branches.push(next)?;
            }
            ModuleElse::Last(arm) => {
                let span = to(span, arm.span());
                return Ok((closed(span, branches, Some(arm)), rest));
            }
        }
    }
    Ok((closed(span, branches, None), rest))
}

/// The branches of an `if`, and the arm after a last `else`.
fn closed(
    span: Span,
    branches: Items<ModuleBranch>,
    otherwise: Option<ModuleStmt>,
) -> ModuleBranches
    ensures { result ≡ record { span = span; branches = branches; otherwise = otherwise } }
{
    ModuleBranches {
        span,
        branches,
        otherwise,
    }
}

/// The branches of an `if`.
#[cycle(modules)]
#[tactic(auto, unfolding(crate::specs::Modules::branches, bsv_expr::specs::Reading::read))]
fn all_branches<'a>(
    alloc: Global,
    source: &[u8],
    lexemes: &'a [Lexeme],
    depth: usize,
) -> Result<(ModuleBranches, &'a [Lexeme]), ReadFault>
    ensures { Gives (λ x. (x.0, x.1.now)) result
        (within source.now depth grammar.branches lexemes.now) }
{
    let (first, rest) = branch(alloc, source, lexemes, depth)?;
    else_parts(alloc, source, first, rest, depth)
}

/// `"if" "(" expr ")" marm { "else" "if" "(" expr ")" marm } [ "else" marm ]`
#[cycle(modules)]
#[tactic(auto, unfolding(crate::specs::Modules::if_stmt, bsv_expr::specs::Reading::read))]
fn if_stmt<'a>(
    alloc: Global,
    source: &[u8],
    lexemes: &'a [Lexeme],
    depth: usize,
) -> Result<(ModuleStmt, &'a [Lexeme]), ReadFault>
    ensures { Gives (λ x. (x.0, x.1.now)) result
        (within source.now depth grammar.if_stmt lexemes.now) }
{
    let (found, rest) = all_branches(alloc, source, lexemes, depth)?;
    Ok((if_of(alloc, found)?, rest))
}

/// `marm | mif`
#[cycle(modules)]
#[tactic(auto, unfolding(crate::specs::Modules::arm_or_if, bsv_expr::specs::Reading::read))]
fn arm_or_if<'a>(
    alloc: Global,
    source: &[u8],
    lexemes: &'a [Lexeme],
    depth: usize,
) -> Result<(ModuleStmt, &'a [Lexeme]), ReadFault>
    ensures { Gives (λ x. (x.0, x.1.now)) result
        (within source.now depth grammar.arm_or_if lexemes.now) }
{
    if starts(&[Terminal::If], lexemes) {
        return if_stmt(alloc, source, lexemes, depth);
    }
    arm(alloc, source, lexemes, depth)
}

/// `head ( marm | mif )`
#[cycle(modules)]
#[tactic(auto, unfolding(crate::specs::Modules::inner_for, crate::specs::Modules::inner, bsv_expr::specs::Reading::read))]
fn inner_for<'a>(
    alloc: Global,
    source: &[u8],
    lexemes: &'a [Lexeme],
    depth: usize,
) -> Result<(ModuleStmt, &'a [Lexeme]), ReadFault>
    ensures { Gives (λ x. (x.0, x.1.now)) result
        (within source.now depth grammar.inner_for lexemes.now) }
{
    let (head, rest) = head(alloc, source, lexemes, depth)?;
    let head = Boxed::new(alloc, head)?;
    let (body, rest) = arm_or_if(alloc, source, rest, depth)?;
    Ok((for_of(alloc, head, body)?, rest))
}

/// What a loop repeats.
#[cycle(modules)]
#[tactic(auto, unfolding(crate::specs::Modules::for_body, bsv_expr::specs::Reading::read))]
fn for_body<'a>(
    alloc: Global,
    source: &[u8],
    lexemes: &'a [Lexeme],
    depth: usize,
) -> Result<(ModuleStmt, &'a [Lexeme]), ReadFault>
    ensures { Gives (λ x. (x.0, x.1.now)) result
        (within source.now depth grammar.for_body lexemes.now) }
{
    if starts(&[Terminal::For], lexemes) {
        return inner_for(alloc, source, lexemes, depth);
    }
    arm_or_if(alloc, source, lexemes, depth)
}

/// `head ( marm | mif | head ( marm | mif ) )`
#[cycle(modules)]
#[tactic(auto, unfolding(crate::specs::Modules::for_stmt, crate::specs::Modules::inner, bsv_expr::specs::Reading::read))]
fn for_stmt<'a>(
    alloc: Global,
    source: &[u8],
    lexemes: &'a [Lexeme],
    depth: usize,
) -> Result<(ModuleStmt, &'a [Lexeme]), ReadFault>
    ensures { Gives (λ x. (x.0, x.1.now)) result
        (within source.now depth grammar.for_stmt lexemes.now) }
{
    let (head, rest) = head(alloc, source, lexemes, depth)?;
    let head = Boxed::new(alloc, head)?;
    let (body, rest) = for_body(alloc, source, rest, depth)?;
    Ok((for_of(alloc, head, body)?, rest))
}

/// `method`
#[tactic(auto, unfolding(crate::specs::Modules::methodical, crate::specs::Modules::inner, bsv_expr::specs::Reading::read))]
fn methodical<'a>(
    alloc: Global,
    source: &[u8],
    lexemes: &'a [Lexeme],
    depth: usize,
) -> Result<(ModuleStmt, &'a [Lexeme]), ReadFault>
    ensures { Gives (λ x. (x.0, x.1.now)) result
        (within source.now depth grammar.methodical lexemes.now) }
{
    let (found, rest) = method(alloc, source, lexemes, depth)?;
    Ok((ModuleStmt::Method(found.span, found), rest))
}

/// `mif | mfor | method | marm`
#[cycle(modules)]
#[tactic(auto, unfolding(crate::specs::Modules::mstmt_body, bsv_expr::specs::Reading::read))]
fn mstmt_body<'a>(
    alloc: Global,
    source: &[u8],
    lexemes: &'a [Lexeme],
    depth: usize,
) -> Result<(ModuleStmt, &'a [Lexeme]), ReadFault>
    ensures { Gives (λ x. (x.0, x.1.now)) result
        (within source.now depth grammar.mstmt_body lexemes.now) }
{
    if starts(&[Terminal::If], lexemes) {
        return if_stmt(alloc, source, lexemes, depth);
    }
    if starts(&[Terminal::For], lexemes) {
        return for_stmt(alloc, source, lexemes, depth);
    }
    if starts(&[Terminal::Method], lexemes) {
        return methodical(alloc, source, lexemes, depth);
    }
    arm(alloc, source, lexemes, depth)
}

/// `[ "#" "(" params ")" ]`
#[tactic(auto, unfolding(crate::specs::Definitions::module_params, bsv_expr::specs::Reading::read))]
fn module_params<'a>(
    alloc: Global,
    source: &[u8],
    lexemes: &'a [Lexeme],
    depth: usize,
) -> Result<(Items<Param>, &'a [Lexeme]), ReadFault>
    ensures { Gives (λ x. (x.0, x.1.now)) result
        (part source.now depth definitions.module_params lexemes.now) }
{
    if !starts(&[Terminal::Hash], lexemes) {
        return Ok((Items::new(alloc), lexemes));
    }
    let (_, rest) = expect(Terminal::Hash, lexemes)?;
    let (_, rest) = expect(Terminal::OpenParen, rest)?;
    let (found, rest) = params(alloc, source, rest, depth)?;
    let (_, rest) = expect(Terminal::CloseParen, rest)?;
    Ok((found, rest))
}

/// `"(" type ")"`
#[tactic(auto, unfolding(crate::specs::Definitions::given_type, crate::specs::Places::inner, bsv_expr::specs::Reading::read))]
fn given_type<'a>(
    alloc: Global,
    source: &[u8],
    lexemes: &'a [Lexeme],
    depth: usize,
) -> Result<(WrittenType, &'a [Lexeme]), ReadFault>
    ensures { Gives (λ x. (x.0, x.1.now)) result
        (part source.now depth definitions.given_type lexemes.now) }
{
    let (_, rest) = expect(Terminal::OpenParen, lexemes)?;
    let (found, rest) = written(alloc, source, rest, depth)?;
    let (_, rest) = expect(Terminal::CloseParen, rest)?;
    Ok((found, rest))
}

/// `{ attrs } "module" Lower [ "#" "(" params ")" ] "(" type ")" ";" { mstmt } "endmodule"
/// [ ":" Lower ]`
#[tactic(auto, unfolding(crate::specs::Modules::module_whole, crate::specs::Modules::module_front, crate::specs::Definitions::module_head, crate::specs::Modules::inner, bsv_expr::specs::Reading::read))]
pub fn module_whole<'a>(
    alloc: Global,
    source: &[u8],
    lexemes: &'a [Lexeme],
    depth: usize,
) -> Result<(Module, &'a [Lexeme]), ReadFault>
    ensures { Gives (λ x. (x.0, x.1.now)) result
        (within source.now depth grammar.module_whole lexemes.now) }
{
    let (attributes, rest) = groups(alloc, source, lexemes)?;
    let (start, rest) = expect(Terminal::Module, rest)?;
    let (name, rest) = name(alloc, source, Terminal::Lower, rest)?;
    let (params, rest) = module_params(alloc, source, rest, depth)?;
    let (interface, rest) = given_type(alloc, source, rest, depth)?;
    let front = Boxed::new(alloc, (attributes, name, params, interface))?;
    let (_, rest) = expect(Terminal::Semicolon, rest)?;
    let (body, rest) = mstmts(alloc, source, rest, depth)?;
    let (close, rest) = expect(Terminal::EndModule, rest)?;
    let named = front.get().1.name.bytes();
    let (close, rest) = ending(source, Terminal::Lower, named, close, rest)?;
    let (attributes, name, params, interface) = front.into_inner();
    let span = to(start_of(&attributes, start), close);
    let module = Module {
        span,
        attributes,
        name,
        params,
        interface,
        body,
    };
    Ok((module, rest))
}
