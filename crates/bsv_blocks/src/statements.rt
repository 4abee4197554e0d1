ghost use Rattle.std.specs.Prelude.{◌≡◌, IfOk, Some};
ghost use Rattle.bsv_expr.specs.Reading.{Gives};
ghost use Rattle.bsv_blocks.specs.Statements as grammar;
ghost use Rattle.bsv_blocks.specs.Statements.{within};
ghost use Rattle.bsv_blocks.specs.StatementTrees as trees;

use crate::simple::{condition, head, simple};
use bsv_ast::{Boxed, Branch, CaseArm, Expr, Head, Items, Span, Stmt};
use bsv_expr::{EXPRESSION_FIRST, Lexeme, ReadFault, expect, expr, exprs, starts, to};
use bsv_lex::Terminal;
use std::alloc::{AllocError, Global};

/// The words with which a statement begins.
pub const STMT_FIRST: [Terminal; 10] = [
    Terminal::Lower,
    Terminal::Return,
    Terminal::NoAction,
    Terminal::Let,
    Terminal::Upper,
    Terminal::Int,
    Terminal::Begin,
    Terminal::If,
    Terminal::For,
    Terminal::Case,
];

/// The branches of an `if` so far, and the arm after a last `else`.
#[derive(Drop)]
pub struct Branches {
    pub first: Branch,
    pub others: Items<Branch>,
    pub otherwise: Option<Stmt>,
}

/// What comes after an `else`.
#[derive(Drop)]
pub enum ElsePart {
    /// `"if" "(" cond ")" arm`
    If(Branch),
    /// `arm`
    Last(Stmt),
}

/// What is between `case` and `endcase`: the subject, the arms, and the one after `default`.
#[derive(Drop)]
pub struct Cases {
    pub subject: Expr,
    pub arms: Items<CaseArm>,
    pub otherwise: Option<Stmt>,
}

/// Whether one more `else` may come.
fn is_open(found: &Branches) -> bool
    ensures { result ≡ trees.is_open found.now }
{
    found.otherwise.is_none()
}

/// The branches with what comes after one more `else`.
fn with_else(found: Branches, part: ElsePart) -> Result<Branches, AllocError>
    ensures { IfOk result (λ x. x ≡ trees.with_else found part) }
{
    let Branches {
        first,
        mut others,
        otherwise,
    } = found;
    match part {
        ElsePart::If(branch) => {
            others.push(branch)?;
            Ok(Branches {
                first,
                others,
                otherwise,
            })
        }
        ElsePart::Last(arm) => Ok(Branches {
            first,
            others,
            otherwise: Some(arm),
        }),
    }
}

/// Where the last arm stands.
#[tactic(auto, unfolding(bsv_ast::specs::Spans::stmt_span))]
fn last_span(found: &Branches) -> Span
    ensures { result ≡ trees.last_span found.now }
{
    match &found.otherwise {
        Some(arm) => arm.span(),
        None => match found.others.as_slice().last() {
            Some(branch) => branch.span,
            None => found.first.span,
        },
    }
}

/// The `if` of these branches.
fn if_of(alloc: Global, found: Branches) -> Result<Stmt, AllocError>
    ensures { IfOk result (λ x. x ≡ trees.if_of found) }
{
    let span = to(found.first.span, last_span(&found));
    let Branches {
        first,
        others,
        otherwise,
    } = found;
    let mut branches = Items::new(alloc);
    branches.push(first)?;
    branches.append(others)?;
    let otherwise = boxed(alloc, otherwise)?;
    Ok(Stmt::If(span, branches, otherwise))
}

/// A statement, if there is one, in a box.
fn boxed(alloc: Global, found: Option<Stmt>) -> Result<Option<Boxed<Stmt>>, AllocError>
    ensures { IfOk result (λ x. x ≡ found) }
{
    match found {
        None => Ok(None),
        Some(stmt) => Ok(Some(Boxed::new(alloc, stmt)?)),
    }
}

/// The `case` that is here.
fn case_of(alloc: Global, span: Span, found: Cases) -> Result<Stmt, AllocError>
    ensures { IfOk result (λ x. x ≡ trees.case_of span found) }
{
    let Cases {
        subject,
        arms,
        otherwise,
    } = found;
    let otherwise = boxed(alloc, otherwise)?;
    Ok(Stmt::Case(span, subject, arms, otherwise))
}

/// The loop of this head and this body.
fn for_of(alloc: Global, head: Boxed<Head>, body: Stmt) -> Result<Stmt, AllocError>
    ensures { IfOk result (λ x. x ≡ trees.for_of head body) }
{
    let span = to(head.get().span, body.span());
    let body = Boxed::new(alloc, body)?;
    Ok(Stmt::For(span, head.into_inner(), body))
}

/// The arm of a `case` with these labels.
fn case_arm_of(labels: Items<Expr>, arm: Stmt) -> CaseArm
    ensures { result ≡ trees.case_arm_of labels arm }
{
    let end = arm.span();
    let span = match labels.get(0) {
        None => end,
        Some(first) => to(first.span(), end),
    };
    CaseArm { span, labels, arm }
}

/// A statement in which fewer than `depth` blocks are open at once.
#[cycle(statements)]
#[tactic(auto, unfolding(crate::specs::Statements::stmt))]
pub fn stmt<'a>(
    alloc: Global,
    source: &[u8],
    lexemes: &'a [Lexeme],
    depth: usize,
) -> Result<(Stmt, &'a [Lexeme]), ReadFault>
    ensures { Gives (λ x. (x.0, x.1.now)) result (grammar.stmt source.now depth lexemes.now) }
{
    if depth == 0 {
        return Err(ReadFault::TooDeep);
    }
    stmt_body(alloc, source, lexemes, depth - 1)
}

/// `{ stmt }`
#[cycle(statements)]
#[tactic(auto, using(bsv_expr::proofs::Turns::turns_of), unfolding(crate::specs::Statements::stmts, crate::specs::Statements::stmt_first, crate::specs::Statements::inner, crate::specs::Holes::inner, bsv_expr::specs::Reading::read))]
pub fn stmts<'a>(
    alloc: Global,
    source: &[u8],
    lexemes: &'a [Lexeme],
    depth: usize,
) -> Result<(Items<Stmt>, &'a [Lexeme]), ReadFault>
    ensures { Gives (λ x. (x.0, x.1.now)) result
        (within source.now depth grammar.stmts lexemes.now) }
{
    let mut found = Items::new(alloc);
    let mut rest = lexemes;
    for _turn in 0..lexemes.len() {
        if !starts(&STMT_FIRST, rest) {
            return Ok((found, rest));
        }
        let (next, after) = stmt(alloc, source, rest, depth)?;
        found.push(next)?;
        rest = after;
    }
    Ok((found, rest))
}

/// `"begin" { stmt } "end"`
#[cycle(statements)]
#[tactic(auto, unfolding(crate::specs::Statements::block, crate::specs::Statements::inner, crate::specs::Holes::inner, bsv_expr::specs::Reading::read))]
fn block<'a>(
    alloc: Global,
    source: &[u8],
    lexemes: &'a [Lexeme],
    depth: usize,
) -> Result<(Stmt, &'a [Lexeme]), ReadFault>
    ensures { Gives (λ x. (x.0, x.1.now)) result
        (within source.now depth grammar.block lexemes.now) }
{
    let (open, rest) = expect(Terminal::Begin, lexemes)?;
    let (found, rest) = stmts(alloc, source, rest, depth)?;
    let (close, rest) = expect(Terminal::End, rest)?;
    Ok((Stmt::Block(to(open, close), found), rest))
}

/// `simple | block`
#[cycle(statements)]
#[tactic(auto, unfolding(crate::specs::Statements::arm, crate::specs::Statements::inner, crate::specs::Holes::inner, bsv_expr::specs::Reading::read))]
fn arm<'a>(
    alloc: Global,
    source: &[u8],
    lexemes: &'a [Lexeme],
    depth: usize,
) -> Result<(Stmt, &'a [Lexeme]), ReadFault>
    ensures { Gives (λ x. (x.0, x.1.now)) result (within source.now depth grammar.arm lexemes.now) }
{
    if starts(&[Terminal::Begin], lexemes) {
        return block(alloc, source, lexemes, depth);
    }
    simple(alloc, source, lexemes, depth)
}

/// `"if" "(" cond ")" arm`
#[cycle(statements)]
#[tactic(auto, unfolding(crate::specs::Statements::branch, crate::specs::Statements::inner, crate::specs::Holes::inner, bsv_expr::specs::Reading::read))]
fn branch<'a>(
    alloc: Global,
    source: &[u8],
    lexemes: &'a [Lexeme],
    depth: usize,
) -> Result<(Branch, &'a [Lexeme]), ReadFault>
    ensures { Gives (λ x. (x.0, x.1.now)) result
        (within source.now depth grammar.branch lexemes.now) }
{
    let (start, rest) = expect(Terminal::If, lexemes)?;
    let (_, rest) = expect(Terminal::OpenParen, rest)?;
    let (condition, rest) = condition(alloc, source, rest, depth)?;
    let condition = Boxed::new(alloc, condition)?;
    let (_, rest) = expect(Terminal::CloseParen, rest)?;
    let (arm, rest) = arm(alloc, source, rest, depth)?;
    let span = to(start, arm.span());
    let branch = Branch {
        span,
        condition: condition.into_inner(),
        arm,
    };
    Ok((branch, rest))
}

/// `"else"`, and one more branch or the last arm.
#[cycle(statements)]
#[tactic(auto, unfolding(crate::specs::Statements::else_part, crate::specs::Statements::inner, crate::specs::Holes::inner, bsv_expr::specs::Reading::read))]
fn else_part<'a>(
    alloc: Global,
    source: &[u8],
    lexemes: &'a [Lexeme],
    depth: usize,
) -> Result<(ElsePart, &'a [Lexeme]), ReadFault>
    ensures { Gives (λ x. (x.0, x.1.now)) result
        (within source.now depth grammar.else_part lexemes.now) }
{
    let (_, rest) = expect(Terminal::Else, lexemes)?;
    if starts(&[Terminal::If], rest) {
        let (found, rest) = branch(alloc, source, rest, depth)?;
        return Ok((ElsePart::If(found), rest));
    }
    let (last, rest) = arm(alloc, source, rest, depth)?;
    Ok((ElsePart::Last(last), rest))
}

/// The branches of an `if`.
#[cycle(statements)]
#[tactic(auto, using(bsv_expr::proofs::Turns::turns_of), unfolding(crate::specs::Statements::branches, crate::specs::Statements::inner, crate::specs::Holes::inner, bsv_expr::specs::Reading::read))]
fn all_branches<'a>(
    alloc: Global,
    source: &[u8],
    lexemes: &'a [Lexeme],
    depth: usize,
) -> Result<(Branches, &'a [Lexeme]), ReadFault>
    ensures { Gives (λ x. (x.0, x.1.now)) result
        (within source.now depth grammar.branches lexemes.now) }
{
    let (first, mut rest) = branch(alloc, source, lexemes, depth)?;
    let mut found = Branches {
        first,
        others: Items::new(alloc),
        otherwise: None,
    };
    for _turn in 0..rest.len() {
        if !(is_open(&found) && starts(&[Terminal::Else], rest)) {
            return Ok((found, rest));
        }
        let (part, after) = else_part(alloc, source, rest, depth)?;
        found = with_else(found, part)?;
        rest = after;
    }
    Ok((found, rest))
}

/// `"if" "(" cond ")" arm { "else" "if" "(" cond ")" arm } [ "else" arm ]`
#[cycle(statements)]
#[tactic(auto, unfolding(crate::specs::Statements::if_stmt, crate::specs::Statements::inner, crate::specs::Holes::inner, bsv_expr::specs::Reading::read))]
fn if_stmt<'a>(
    alloc: Global,
    source: &[u8],
    lexemes: &'a [Lexeme],
    depth: usize,
) -> Result<(Stmt, &'a [Lexeme]), ReadFault>
    ensures { Gives (λ x. (x.0, x.1.now)) result
        (within source.now depth grammar.if_stmt lexemes.now) }
{
    let (found, rest) = all_branches(alloc, source, lexemes, depth)?;
    Ok((if_of(alloc, found)?, rest))
}

/// `arm | if`
#[cycle(statements)]
#[tactic(auto, unfolding(crate::specs::Statements::arm_or_if, crate::specs::Statements::inner, crate::specs::Holes::inner, bsv_expr::specs::Reading::read))]
fn arm_or_if<'a>(
    alloc: Global,
    source: &[u8],
    lexemes: &'a [Lexeme],
    depth: usize,
) -> Result<(Stmt, &'a [Lexeme]), ReadFault>
    ensures { Gives (λ x. (x.0, x.1.now)) result
        (within source.now depth grammar.arm_or_if lexemes.now) }
{
    if starts(&[Terminal::If], lexemes) {
        return if_stmt(alloc, source, lexemes, depth);
    }
    arm(alloc, source, lexemes, depth)
}

/// `head ( arm | if )`
#[cycle(statements)]
#[tactic(auto, unfolding(crate::specs::Statements::inner_for, crate::specs::Statements::inner, crate::specs::Holes::inner, bsv_expr::specs::Reading::read))]
fn inner_for<'a>(
    alloc: Global,
    source: &[u8],
    lexemes: &'a [Lexeme],
    depth: usize,
) -> Result<(Stmt, &'a [Lexeme]), ReadFault>
    ensures { Gives (λ x. (x.0, x.1.now)) result
        (within source.now depth grammar.inner_for lexemes.now) }
{
    let (head, rest) = head(alloc, source, lexemes, depth)?;
    let head = Boxed::new(alloc, head)?;
    let (body, rest) = arm_or_if(alloc, source, rest, depth)?;
    Ok((for_of(alloc, head, body)?, rest))
}

/// What a loop repeats.
#[cycle(statements)]
#[tactic(auto, unfolding(crate::specs::Statements::for_body, crate::specs::Statements::inner, crate::specs::Holes::inner, bsv_expr::specs::Reading::read))]
fn for_body<'a>(
    alloc: Global,
    source: &[u8],
    lexemes: &'a [Lexeme],
    depth: usize,
) -> Result<(Stmt, &'a [Lexeme]), ReadFault>
    ensures { Gives (λ x. (x.0, x.1.now)) result
        (within source.now depth grammar.for_body lexemes.now) }
{
    if starts(&[Terminal::For], lexemes) {
        return inner_for(alloc, source, lexemes, depth);
    }
    arm_or_if(alloc, source, lexemes, depth)
}

/// `head ( arm | if | head ( arm | if ) )`
#[cycle(statements)]
#[tactic(auto, unfolding(crate::specs::Statements::for_stmt, crate::specs::Statements::inner, crate::specs::Holes::inner, bsv_expr::specs::Reading::read))]
fn for_stmt<'a>(
    alloc: Global,
    source: &[u8],
    lexemes: &'a [Lexeme],
    depth: usize,
) -> Result<(Stmt, &'a [Lexeme]), ReadFault>
    ensures { Gives (λ x. (x.0, x.1.now)) result
        (within source.now depth grammar.for_stmt lexemes.now) }
{
    let (head, rest) = head(alloc, source, lexemes, depth)?;
    let head = Boxed::new(alloc, head)?;
    let (body, rest) = for_body(alloc, source, rest, depth)?;
    Ok((for_of(alloc, head, body)?, rest))
}

/// `exprs ":" ( arm | if )`
#[cycle(statements)]
#[tactic(auto, unfolding(crate::specs::Statements::case_arm, crate::specs::Statements::inner, crate::specs::Holes::inner, bsv_expr::specs::Reading::read))]
fn case_arm<'a>(
    alloc: Global,
    source: &[u8],
    lexemes: &'a [Lexeme],
    depth: usize,
) -> Result<(CaseArm, &'a [Lexeme]), ReadFault>
    ensures { Gives (λ x. (x.0, x.1.now)) result
        (within source.now depth grammar.case_arm lexemes.now) }
{
    let (labels, rest) = exprs(alloc, source, lexemes, depth)?;
    let (_, rest) = expect(Terminal::Colon, rest)?;
    let (arm, rest) = arm_or_if(alloc, source, rest, depth)?;
    Ok((case_arm_of(labels, arm), rest))
}

/// `{ exprs ":" ( arm | if ) }`
#[cycle(statements)]
#[tactic(auto, using(bsv_expr::proofs::Turns::turns_of), unfolding(bsv_expr::specs::Expressions::expression_first, crate::specs::Statements::case_arms, crate::specs::Statements::inner, crate::specs::Holes::inner, bsv_expr::specs::Reading::read))]
fn case_arms<'a>(
    alloc: Global,
    source: &[u8],
    lexemes: &'a [Lexeme],
    depth: usize,
) -> Result<(Items<CaseArm>, &'a [Lexeme]), ReadFault>
    ensures { Gives (λ x. (x.0, x.1.now)) result
        (within source.now depth grammar.case_arms lexemes.now) }
{
    let mut found = Items::new(alloc);
    let mut rest = lexemes;
    for _turn in 0..lexemes.len() {
        if !starts(&EXPRESSION_FIRST, rest) {
            return Ok((found, rest));
        }
        let (next, after) = case_arm(alloc, source, rest, depth)?;
        found.push(next)?;
        rest = after;
    }
    Ok((found, rest))
}

/// `[ "default" ":" ( arm | if ) ]`
#[cycle(statements)]
#[tactic(auto, unfolding(crate::specs::Statements::default_arm, crate::specs::Statements::inner, crate::specs::Holes::inner, bsv_expr::specs::Reading::read))]
fn default_arm<'a>(
    alloc: Global,
    source: &[u8],
    lexemes: &'a [Lexeme],
    depth: usize,
) -> Result<(Option<Stmt>, &'a [Lexeme]), ReadFault>
    ensures { Gives (λ x. (x.0, x.1.now)) result
        (within source.now depth grammar.default_arm lexemes.now) }
{
    if !starts(&[Terminal::Default], lexemes) {
        return Ok((None, lexemes));
    }
    let (_, rest) = expect(Terminal::Default, lexemes)?;
    let (_, rest) = expect(Terminal::Colon, rest)?;
    let (arm, rest) = arm_or_if(alloc, source, rest, depth)?;
    Ok((Some(arm), rest))
}

/// What is between `case` and `endcase`: the subject, the arms, and the one after `default`.
#[cycle(statements)]
#[tactic(auto, unfolding(crate::specs::Statements::case_inside, crate::specs::Statements::inner, crate::specs::Holes::inner, bsv_expr::specs::Reading::read))]
fn case_inside<'a>(
    alloc: Global,
    source: &[u8],
    lexemes: &'a [Lexeme],
    depth: usize,
) -> Result<(Cases, &'a [Lexeme]), ReadFault>
    ensures { Gives (λ x. (x.0, x.1.now)) result
        (within source.now depth grammar.case_inside lexemes.now) }
{
    let (_, rest) = expect(Terminal::OpenParen, lexemes)?;
    let (subject, rest) = expr(alloc, source, rest, depth, false)?;
    let subject = Boxed::new(alloc, subject)?;
    let (_, rest) = expect(Terminal::CloseParen, rest)?;
    let (arms, rest) = case_arms(alloc, source, rest, depth)?;
    let (otherwise, rest) = default_arm(alloc, source, rest, depth)?;
    let found = Cases {
        subject: subject.into_inner(),
        arms,
        otherwise,
    };
    Ok((found, rest))
}

/// `"case" "(" expr ")" { exprs ":" ( arm | if ) } [ "default" ":" ( arm | if ) ] "endcase"`
#[cycle(statements)]
#[tactic(auto, unfolding(crate::specs::Statements::case_stmt, crate::specs::Statements::inner, crate::specs::Holes::inner, bsv_expr::specs::Reading::read))]
fn case_stmt<'a>(
    alloc: Global,
    source: &[u8],
    lexemes: &'a [Lexeme],
    depth: usize,
) -> Result<(Stmt, &'a [Lexeme]), ReadFault>
    ensures { Gives (λ x. (x.0, x.1.now)) result
        (within source.now depth grammar.case_stmt lexemes.now) }
{
    let (open, rest) = expect(Terminal::Case, lexemes)?;
    let (found, rest) = case_inside(alloc, source, rest, depth)?;
    let found = Boxed::new(alloc, found)?;
    let (close, rest) = expect(Terminal::EndCase, rest)?;
    let stmt = case_of(alloc, to(open, close), found.into_inner())?;
    Ok((stmt, rest))
}

/// `simple | block | if | for | case`
#[cycle(statements)]
#[tactic(auto, unfolding(crate::specs::Statements::stmt_body, crate::specs::Statements::inner, crate::specs::Holes::inner, bsv_expr::specs::Reading::read))]
fn stmt_body<'a>(
    alloc: Global,
    source: &[u8],
    lexemes: &'a [Lexeme],
    depth: usize,
) -> Result<(Stmt, &'a [Lexeme]), ReadFault>
    ensures { Gives (λ x. (x.0, x.1.now)) result
        (within source.now depth grammar.stmt_body lexemes.now) }
{
    if starts(&[Terminal::If], lexemes) {
        return if_stmt(alloc, source, lexemes, depth);
    }
    if starts(&[Terminal::For], lexemes) {
        return for_stmt(alloc, source, lexemes, depth);
    }
    if starts(&[Terminal::Case], lexemes) {
        return case_stmt(alloc, source, lexemes, depth);
    }
    arm(alloc, source, lexemes, depth)
}
