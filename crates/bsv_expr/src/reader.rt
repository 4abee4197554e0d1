ghost use Rattle.std.specs.Prelude.{◌≡◌, [], ◌∷◌, IfOk, Bool, false};
ghost use Rattle.bsv_expr.specs.Reading.{Gives};
ghost use Rattle.bsv_expr.specs.Readers as spec;
ghost use Rattle.bsv_expr.specs.Readers.{part};
ghost use Rattle.bsv_expr.specs.Expressions as grammar;
ghost use Rattle.bsv_expr.specs.Trees as trees;

use crate::fault::{ReadFault, forgives};
use crate::input::{expect, name, number, refusal, tag};
use crate::lexeme::{Lexeme, starts, to};
use crate::operators::{LEVELS, operator, prefix, words_of};
use bsv_ast::{Boxed, Expr, FieldValue, Ident, Items, Level, Operator, Span, Suffix};
use bsv_lex::Terminal;
use std::alloc::{AllocError, Global};

/// The first operand of a level, the operators after it, and the operand after each.
#[derive(Drop)]
pub struct Operands {
    pub first: Expr,
    pub operators: Items<Operator>,
    pub others: Items<Expr>,
}

/// A name alone, or a call.
fn name_or_call(name: Ident, found: Option<(Items<Expr>, Span)>) -> Expr
    ensures { result ≡ trees.name_or_call name found }
{
    match found {
        None => Expr::Name(name.span, name),
        Some((arguments, close)) => Expr::Call(to(name.span, close), name, arguments),
    }
}

/// A label alone, or the value of a struct.
fn label_or_struct(name: Ident, found: Option<(Items<FieldValue>, Span)>) -> Expr
    ensures { result ≡ trees.label_or_struct name found }
{
    match found {
        None => Expr::Label(name.span, name),
        Some((fields, close)) => Expr::Struct(to(name.span, close), name, fields),
    }
}

/// A field, or a method with its arguments.
fn member_or_method(dot: Span, name: Ident, found: Option<(Items<Expr>, Span)>) -> Suffix
    ensures { result ≡ trees.member_or_method dot (name, found) }
{
    match found {
        None => Suffix::Member(to(dot, name.span), name),
        Some((arguments, close)) => Suffix::Method(to(dot, close), name, arguments),
    }
}

/// A primary alone, or with what comes after it.
fn postfix_of(alloc: Global, first: Expr, suffixes: Items<Suffix>) -> Result<Expr, AllocError>
    ensures { IfOk result (λ x. x ≡ trees.postfix_of first suffixes) }
{
    let Some(last) = suffixes.as_slice().last() else {
        return Ok(first);
    };
    let span = to(first.span(), last.span());
    Ok(Expr::Postfix(span, Boxed::new(alloc, first)?, suffixes))
}

/// One operand alone, or a chain of operands.
fn chain_of(alloc: Global, level: Level, found: Operands) -> Result<Expr, AllocError>
    ensures { IfOk result (λ x. x ≡ trees.chain_of level found) }
{
    let Operands {
        first,
        operators,
        others,
    } = found;
    let Some(last) = others.as_slice().last() else {
        return Ok(first);
    };
    let span = to(first.span(), last.span());
    let mut operands = Items::new(alloc);
    operands.push(first)?;
    operands.append(others)?;
    Ok(Expr::Chain(span, level, operators, operands))
}

/// One operand alone, or a choice among values.
fn choice_of(
    conditions: Items<Expr>,
    mut values: Items<Expr>,
    last: Expr,
) -> Result<Expr, AllocError>
    ensures { IfOk result (λ x. x ≡ trees.choice_of (conditions, values, last)) }
{
    let Some(first) = conditions.get(0) else {
        return Ok(last);
    };
    let span = to(first.span(), last.span());
    values.push(last)?;
    Ok(Expr::Choice(span, conditions, values))
}

/// An expression in which fewer than `depth` brackets are open at once.
#[cycle(expr)]
#[tactic(auto, unfolding(crate::specs::Readers::expr))]
pub fn expr<'a>(
    alloc: Global,
    source: &[u8],
    lexemes: &'a [Lexeme],
    depth: usize,
    soft: bool,
) -> Result<(Expr, &'a [Lexeme]), ReadFault>
    ensures { Gives (λ x. (x.0, x.1.now)) result (spec.expr source.now depth soft lexemes.now) }
{
    if depth == 0 {
        return Err(ReadFault::TooDeep);
    }
    choice(alloc, source, lexemes, depth - 1, soft)
}

/// One or more expressions with a `,` between them.
#[cycle(expr)]
#[tactic(auto, using(crate::proofs::Turns::turns_of), unfolding(crate::specs::Expressions::exprs, crate::specs::Expressions::expression, crate::specs::Reading::read))]
pub fn exprs<'a>(
    alloc: Global,
    source: &[u8],
    lexemes: &'a [Lexeme],
    depth: usize,
) -> Result<(Items<Expr>, &'a [Lexeme]), ReadFault>
    ensures { Gives (λ x. (x.0, x.1.now)) result
        (part source.now depth false grammar.exprs lexemes.now) }
{
    let mut found = Items::new(alloc);
    let (first, mut rest) = expr(alloc, source, lexemes, depth, false)?;
    found.push(first)?;
    for _turn in 0..rest.len() {
        if !starts(&[Terminal::Comma], rest) {
            return Ok((found, rest));
        }
        let (_, after) = expect(Terminal::Comma, rest)?;
        let (next, after) = expr(alloc, source, after, depth, false)?;
        found.push(next)?;
        rest = after;
    }
    Ok((found, rest))
}

/// `"(" [ exprs ] ")"`, and where its `)` stands.
#[cycle(expr)]
#[tactic(auto, unfolding(crate::specs::Expressions::arguments, crate::specs::Reading::read, crate::specs::Expressions::expression_first))]
pub fn arguments<'a>(
    alloc: Global,
    source: &[u8],
    lexemes: &'a [Lexeme],
    depth: usize,
) -> Result<((Items<Expr>, Span), &'a [Lexeme]), ReadFault>
    ensures { (soft : Bool) → Gives (λ x. (x.0, x.1.now)) result
        (part source.now depth soft grammar.arguments lexemes.now) }
{
    let (_, rest) = expect(Terminal::OpenParen, lexemes)?;
    if !starts(&EXPRESSION_FIRST, rest) {
        let (close, rest) = expect(Terminal::CloseParen, rest)?;
        return Ok(((Items::new(alloc), close), rest));
    }
    let (found, rest) = exprs(alloc, source, rest, depth)?;
    let (close, rest) = expect(Terminal::CloseParen, rest)?;
    Ok(((found, close), rest))
}

/// The arguments of a call, if there are any.
#[cycle(expr)]
#[tactic(auto, unfolding(crate::specs::Expressions::optional_arguments, crate::specs::Reading::read))]
fn optional_arguments<'a>(
    alloc: Global,
    source: &[u8],
    lexemes: &'a [Lexeme],
    depth: usize,
    soft: bool,
) -> Result<(Option<(Items<Expr>, Span)>, &'a [Lexeme]), ReadFault>
    ensures { Gives (λ x. (x.0, x.1.now)) result
        (part source.now depth soft grammar.optional_arguments lexemes.now) }
{
    if !starts(&[Terminal::OpenParen], lexemes) {
        return Ok((None, lexemes));
    }
    match arguments(alloc, source, lexemes, depth) {
        Ok((found, rest)) => Ok((Some(found), rest)),
        Err(fault) if forgives(soft, fault) => Ok((None, lexemes)),
        Err(fault) => Err(fault),
    }
}

/// A name, or a call.
#[cycle(expr)]
#[tactic(auto, unfolding(crate::specs::Expressions::named, crate::specs::Reading::read))]
fn named<'a>(
    alloc: Global,
    source: &[u8],
    lexemes: &'a [Lexeme],
    depth: usize,
    soft: bool,
) -> Result<(Expr, &'a [Lexeme]), ReadFault>
    ensures { Gives (λ x. (x.0, x.1.now)) result
        (part source.now depth soft grammar.named lexemes.now) }
{
    let (name, rest) = name(alloc, source, Terminal::Lower, lexemes)?;
    let (found, rest) = optional_arguments(alloc, source, rest, depth, soft)?;
    Ok((name_or_call(name, found), rest))
}

/// `Lower ":" expr`
#[cycle(expr)]
#[tactic(auto, unfolding(crate::specs::Expressions::field, crate::specs::Expressions::expression, crate::specs::Reading::read))]
fn field<'a>(
    alloc: Global,
    source: &[u8],
    lexemes: &'a [Lexeme],
    depth: usize,
) -> Result<(FieldValue, &'a [Lexeme]), ReadFault>
    ensures { Gives (λ x. (x.0, x.1.now)) result
        (part source.now depth false grammar.field lexemes.now) }
{
    let (field, rest) = name(alloc, source, Terminal::Lower, lexemes)?;
    let (_, rest) = expect(Terminal::Colon, rest)?;
    let (value, rest) = expr(alloc, source, rest, depth, false)?;
    let span = to(field.span, value.span());
    Ok((FieldValue { span, field, value }, rest))
}

/// One or more fields with a `,` between them.
#[cycle(expr)]
#[tactic(auto, using(crate::proofs::Turns::turns_of), unfolding(crate::specs::Expressions::field_list, crate::specs::Reading::read))]
fn field_list<'a>(
    alloc: Global,
    source: &[u8],
    lexemes: &'a [Lexeme],
    depth: usize,
) -> Result<(Items<FieldValue>, &'a [Lexeme]), ReadFault>
    ensures { Gives (λ x. (x.0, x.1.now)) result
        (part source.now depth false grammar.field_list lexemes.now) }
{
    let mut found = Items::new(alloc);
    let (first, mut rest) = field(alloc, source, lexemes, depth)?;
    found.push(first)?;
    for _turn in 0..rest.len() {
        if !starts(&[Terminal::Comma], rest) {
            return Ok((found, rest));
        }
        let (_, after) = expect(Terminal::Comma, rest)?;
        let (next, after) = field(alloc, source, after, depth)?;
        found.push(next)?;
        rest = after;
    }
    Ok((found, rest))
}

/// The fields of a struct in their `{ }`, and where the `}` stands.
#[cycle(expr)]
#[tactic(auto, unfolding(crate::specs::Expressions::fields, crate::specs::Reading::read))]
fn fields<'a>(
    alloc: Global,
    source: &[u8],
    lexemes: &'a [Lexeme],
    depth: usize,
) -> Result<((Items<FieldValue>, Span), &'a [Lexeme]), ReadFault>
    ensures { (soft : Bool) → Gives (λ x. (x.0, x.1.now)) result
        (part source.now depth soft grammar.fields lexemes.now) }
{
    let (_, rest) = expect(Terminal::OpenBrace, lexemes)?;
    let (found, rest) = field_list(alloc, source, rest, depth)?;
    let (close, rest) = expect(Terminal::CloseBrace, rest)?;
    Ok(((found, close), rest))
}

/// The fields of a struct, if there are any.
#[cycle(expr)]
#[tactic(auto, unfolding(crate::specs::Expressions::optional_fields, crate::specs::Reading::read))]
fn optional_fields<'a>(
    alloc: Global,
    source: &[u8],
    lexemes: &'a [Lexeme],
    depth: usize,
    soft: bool,
) -> Result<(Option<(Items<FieldValue>, Span)>, &'a [Lexeme]), ReadFault>
    ensures { Gives (λ x. (x.0, x.1.now)) result
        (part source.now depth soft grammar.optional_fields lexemes.now) }
{
    if !starts(&[Terminal::OpenBrace], lexemes) {
        return Ok((None, lexemes));
    }
    match fields(alloc, source, lexemes, depth) {
        Ok((found, rest)) => Ok((Some(found), rest)),
        Err(fault) if forgives(soft, fault) => Ok((None, lexemes)),
        Err(fault) => Err(fault),
    }
}

/// A label, or the value of a struct.
#[cycle(expr)]
#[tactic(auto, unfolding(crate::specs::Expressions::labelled, crate::specs::Reading::read))]
fn labelled<'a>(
    alloc: Global,
    source: &[u8],
    lexemes: &'a [Lexeme],
    depth: usize,
    soft: bool,
) -> Result<(Expr, &'a [Lexeme]), ReadFault>
    ensures { Gives (λ x. (x.0, x.1.now)) result
        (part source.now depth soft grammar.labelled lexemes.now) }
{
    let (name, rest) = name(alloc, source, Terminal::Upper, lexemes)?;
    let (found, rest) = optional_fields(alloc, source, rest, depth, soft)?;
    Ok((label_or_struct(name, found), rest))
}

/// `"(" expr ")"`
#[cycle(expr)]
#[tactic(auto, unfolding(crate::specs::Expressions::group, crate::specs::Expressions::expression, crate::specs::Reading::read))]
fn group<'a>(
    alloc: Global,
    source: &[u8],
    lexemes: &'a [Lexeme],
    depth: usize,
) -> Result<(Expr, &'a [Lexeme]), ReadFault>
    ensures { (soft : Bool) → Gives (λ x. (x.0, x.1.now)) result
        (part source.now depth soft grammar.group lexemes.now) }
{
    let (open, rest) = expect(Terminal::OpenParen, lexemes)?;
    let (inner, rest) = expr(alloc, source, rest, depth, false)?;
    let inner = Boxed::new(alloc, inner)?;
    let (close, rest) = expect(Terminal::CloseParen, rest)?;
    Ok((Expr::Group(to(open, close), inner), rest))
}

/// `"{" exprs "}"`
#[cycle(expr)]
#[tactic(auto, unfolding(crate::specs::Expressions::concat, crate::specs::Reading::read))]
fn concat<'a>(
    alloc: Global,
    source: &[u8],
    lexemes: &'a [Lexeme],
    depth: usize,
) -> Result<(Expr, &'a [Lexeme]), ReadFault>
    ensures { (soft : Bool) → Gives (λ x. (x.0, x.1.now)) result
        (part source.now depth soft grammar.concat lexemes.now) }
{
    let (open, rest) = expect(Terminal::OpenBrace, lexemes)?;
    let (parts, rest) = exprs(alloc, source, rest, depth)?;
    let (close, rest) = expect(Terminal::CloseBrace, rest)?;
    Ok((Expr::Concat(to(open, close), parts), rest))
}

/// A primary.
#[cycle(expr)]
#[tactic(auto, unfolding(crate::specs::Expressions::primary, crate::specs::Expressions::number, crate::specs::Reading::read))]
fn primary<'a>(
    alloc: Global,
    source: &[u8],
    lexemes: &'a [Lexeme],
    depth: usize,
    soft: bool,
) -> Result<(Expr, &'a [Lexeme]), ReadFault>
    ensures { Gives (λ x. (x.0, x.1.now)) result
        (part source.now depth soft grammar.primary lexemes.now) }
{
    if starts(&[Terminal::Number], lexemes) {
        let ((span, value), rest) = number(source, lexemes)?;
        return Ok((Expr::Number(span, value), rest));
    }
    if starts(&[Terminal::Upper], lexemes) {
        return labelled(alloc, source, lexemes, depth, soft);
    }
    if starts(&[Terminal::Lower], lexemes) {
        return named(alloc, source, lexemes, depth, soft);
    }
    if starts(&[Terminal::OpenParen], lexemes) {
        return group(alloc, source, lexemes, depth);
    }
    concat(alloc, source, lexemes, depth)
}

/// A field or a method.
#[cycle(expr)]
#[tactic(auto, unfolding(crate::specs::Expressions::method, crate::specs::Reading::read))]
fn method<'a>(
    alloc: Global,
    source: &[u8],
    lexemes: &'a [Lexeme],
    depth: usize,
    soft: bool,
) -> Result<(Suffix, &'a [Lexeme]), ReadFault>
    ensures { Gives (λ x. (x.0, x.1.now)) result
        (part source.now depth soft grammar.method lexemes.now) }
{
    let (dot, rest) = expect(Terminal::Dot, lexemes)?;
    let (name, rest) = name(alloc, source, Terminal::Lower, rest)?;
    let (found, rest) = optional_arguments(alloc, source, rest, depth, soft)?;
    Ok((member_or_method(dot, name, found), rest))
}

/// An index or a slice.
#[cycle(expr)]
#[tactic(auto, unfolding(crate::specs::Expressions::bracketed, crate::specs::Expressions::expression, crate::specs::Reading::read))]
fn bracketed<'a>(
    alloc: Global,
    source: &[u8],
    lexemes: &'a [Lexeme],
    depth: usize,
) -> Result<(Suffix, &'a [Lexeme]), ReadFault>
    ensures { (soft : Bool) → Gives (λ x. (x.0, x.1.now)) result
        (part source.now depth soft grammar.bracketed lexemes.now) }
{
    let (open, rest) = expect(Terminal::OpenBracket, lexemes)?;
    let (first, rest) = expr(alloc, source, rest, depth, false)?;
    let first = Boxed::new(alloc, first)?;
    if !starts(&[Terminal::Colon], rest) {
        let (close, rest) = expect(Terminal::CloseBracket, rest)?;
        return Ok((Suffix::Index(to(open, close), first.into_inner()), rest));
    }
    let (_, rest) = expect(Terminal::Colon, rest)?;
    let (second, rest) = expr(alloc, source, rest, depth, false)?;
    let second = Boxed::new(alloc, second)?;
    let (close, rest) = expect(Terminal::CloseBracket, rest)?;
    let (first, second) = (first.into_inner(), second.into_inner());
    Ok((Suffix::Slice(to(open, close), first, second), rest))
}

/// What comes after a primary, once.
#[cycle(expr)]
#[tactic(auto, unfolding(crate::specs::Expressions::suffixed, crate::specs::Reading::read))]
fn suffixed<'a>(
    alloc: Global,
    source: &[u8],
    lexemes: &'a [Lexeme],
    depth: usize,
    soft: bool,
) -> Result<(Suffix, &'a [Lexeme]), ReadFault>
    ensures { Gives (λ x. (x.0, x.1.now)) result
        (part source.now depth soft grammar.suffixed lexemes.now) }
{
    if starts(&[Terminal::Dot], lexemes) {
        return method(alloc, source, lexemes, depth, soft);
    }
    bracketed(alloc, source, lexemes, depth)
}

/// What comes after a primary.
#[cycle(expr)]
#[tactic(auto, using(crate::proofs::Turns::turns_of), unfolding(crate::specs::Expressions::suffixes, crate::specs::Reading::read))]
fn suffixes<'a>(
    alloc: Global,
    source: &[u8],
    lexemes: &'a [Lexeme],
    depth: usize,
    soft: bool,
) -> Result<(Items<Suffix>, &'a [Lexeme]), ReadFault>
    ensures { Gives (λ x. (x.0, x.1.now)) result
        (part source.now depth soft grammar.suffixes lexemes.now) }
{
    let mut found = Items::new(alloc);
    let mut rest = lexemes;
    for _turn in 0..lexemes.len() {
        if !starts(&[Terminal::Dot, Terminal::OpenBracket], rest) {
            return Ok((found, rest));
        }
        match suffixed(alloc, source, rest, depth, soft) {
            Ok((next, after)) => {
                found.push(next)?;
                rest = after;
            }
            Err(fault) if forgives(soft, fault) => return Ok((found, rest)),
            Err(fault) => return Err(fault),
        }
    }
    Ok((found, rest))
}

/// A primary, and what comes after it.
#[cycle(expr)]
#[tactic(auto, unfolding(crate::specs::Expressions::postfix, crate::specs::Reading::read))]
fn postfix<'a>(
    alloc: Global,
    source: &[u8],
    lexemes: &'a [Lexeme],
    depth: usize,
    soft: bool,
) -> Result<(Expr, &'a [Lexeme]), ReadFault>
    ensures { Gives (λ x. (x.0, x.1.now)) result
        (part source.now depth soft grammar.postfix lexemes.now) }
{
    let (first, rest) = primary(alloc, source, lexemes, depth, soft)?;
    let (found, rest) = suffixes(alloc, source, rest, depth, soft)?;
    Ok((postfix_of(alloc, first, found)?, rest))
}

/// An operator and the operand after it.
#[cycle(expr)]
#[tactic(auto, unfolding(crate::specs::Expressions::operated, crate::specs::Reading::read))]
fn operated<'a>(
    alloc: Global,
    source: &[u8],
    lexemes: &'a [Lexeme],
    depth: usize,
    soft: bool,
) -> Result<(Expr, &'a [Lexeme]), ReadFault>
    ensures { Gives (λ x. (x.0, x.1.now)) result
        (part source.now depth soft grammar.operated lexemes.now) }
{
    let ((span, operator), rest) = prefix(lexemes)?;
    let (operand, rest) = postfix(alloc, source, rest, depth, soft)?;
    let span = to(span, operand.span());
    Ok((
        Expr::Unary(span, operator, Boxed::new(alloc, operand)?),
        rest,
    ))
}

/// A value of a Maybe type.
#[cycle(expr)]
#[tactic(auto, unfolding(crate::specs::Expressions::tagged, crate::specs::Reading::read))]
fn tagged<'a>(
    alloc: Global,
    source: &[u8],
    lexemes: &'a [Lexeme],
    depth: usize,
    soft: bool,
) -> Result<(Expr, &'a [Lexeme]), ReadFault>
    ensures { Gives (λ x. (x.0, x.1.now)) result
        (part source.now depth soft grammar.tagged lexemes.now) }
{
    let (start, rest) = expect(Terminal::Tagged, lexemes)?;
    let ((span, valid), rest) = tag(source, rest)?;
    if !valid {
        return Ok((Expr::Invalid(to(start, span)), rest));
    }
    let (payload, rest) = postfix(alloc, source, rest, depth, soft)?;
    let span = to(start, payload.span());
    Ok((Expr::Valid(span, Boxed::new(alloc, payload)?), rest))
}

/// An operand of the tightest operators.
#[cycle(expr)]
#[tactic(auto, unfolding(crate::specs::Expressions::operand, crate::specs::Reading::read))]
fn operand<'a>(
    alloc: Global,
    source: &[u8],
    lexemes: &'a [Lexeme],
    depth: usize,
    soft: bool,
) -> Result<(Expr, &'a [Lexeme]), ReadFault>
    ensures { Gives (λ x. (x.0, x.1.now)) result
        (part source.now depth soft grammar.operand lexemes.now) }
{
    if starts(&[Terminal::Tagged], lexemes) {
        return tagged(alloc, source, lexemes, depth, soft);
    }
    if starts(&[Terminal::Not, Terminal::Tilde, Terminal::Minus], lexemes) {
        return operated(alloc, source, lexemes, depth, soft);
    }
    postfix(alloc, source, lexemes, depth, soft)
}

/// An operator of the level, and the operand of the tighter levels after it.
#[cycle(expr)]
#[tactic(auto, unfolding(crate::specs::Expressions::operation, crate::specs::Reading::read))]
fn operation<'a>(
    alloc: Global,
    source: &[u8],
    level: Level,
    tighter: &[Level],
    lexemes: &'a [Lexeme],
    depth: usize,
    soft: bool,
) -> Result<((Operator, Expr), &'a [Lexeme]), ReadFault>
    ensures { Gives (λ x. (x.0, x.1.now)) result
        (part source.now depth soft (grammar.operation level (grammar.chain tighter.now))
        lexemes.now) }
{
    let (operator, rest) = operator(level, lexemes)?;
    let (operand, rest) = chain(alloc, source, tighter, rest, depth, soft)?;
    Ok(((operator, operand), rest))
}

/// The operands of a level that come after its first one.
#[cycle(expr)]
#[tactic(auto, using(crate::proofs::Turns::turns_of), unfolding(crate::specs::Reading::read))]
fn operations<'a>(
    alloc: Global,
    source: &[u8],
    level: Level,
    tighter: &[Level],
    first: Expr,
    lexemes: &'a [Lexeme],
    depth: usize,
    soft: bool,
) -> Result<(Operands, &'a [Lexeme]), ReadFault>
    ensures { Gives (λ x. (x.0, x.1.now)) result
        (spec.operations source.now depth soft level tighter.now first lexemes.now) }
{
    let mut operators = Items::new(alloc);
    let mut others = Items::new(alloc);
    let mut rest = lexemes;
    for _turn in 0..lexemes.len() {
        if !starts(words_of(level), rest) {
            break;
        }
        match operation(alloc, source, level, tighter, rest, depth, soft) {
            Ok(((operator, operand), after)) => {
                operators.push(operator)?;
                others.push(operand)?;
                rest = after;
            }
            Err(fault) if forgives(soft, fault) => break,
            Err(fault) => return Err(fault),
        }
    }
    Ok((
        Operands {
            first,
            operators,
            others,
        },
        rest,
    ))
}

/// The operands of a level.
#[cycle(expr)]
#[tactic(auto, unfolding(crate::specs::Expressions::chain, crate::specs::Reading::read))]
fn chain_at<'a>(
    alloc: Global,
    source: &[u8],
    level: Level,
    tighter: &[Level],
    lexemes: &'a [Lexeme],
    depth: usize,
    soft: bool,
) -> Result<(Expr, &'a [Lexeme]), ReadFault>
    ensures { Gives (λ x. (x.0, x.1.now)) result
        (part source.now depth soft (grammar.chain (level ∷ tighter.now)) lexemes.now) }
{
    let (first, rest) = chain(alloc, source, tighter, lexemes, depth, soft)?;
    let (found, rest) = operations(alloc, source, level, tighter, first, rest, depth, soft)?;
    Ok((chain_of(alloc, level, found)?, rest))
}

/// The operands of the levels, of which the first is the loosest.
#[cycle(expr)]
#[tactic(auto, unfolding(crate::specs::Expressions::chain))]
fn chain<'a>(
    alloc: Global,
    source: &[u8],
    levels: &[Level],
    lexemes: &'a [Lexeme],
    depth: usize,
    soft: bool,
) -> Result<(Expr, &'a [Lexeme]), ReadFault>
    ensures { Gives (λ x. (x.0, x.1.now)) result
        (part source.now depth soft (grammar.chain levels.now) lexemes.now) }
{
    match levels {
        [] => operand(alloc, source, lexemes, depth, soft),
        [level, tighter @ ..] => chain_at(alloc, source, *level, tighter, lexemes, depth, soft),
    }
}

/// `"?" e1 ":" e1`
#[cycle(expr)]
#[tactic(auto, unfolding(crate::specs::Expressions::arm, crate::specs::Expressions::levels, crate::specs::Reading::read))]
fn arm<'a>(
    alloc: Global,
    source: &[u8],
    lexemes: &'a [Lexeme],
    depth: usize,
    soft: bool,
) -> Result<((Expr, Expr), &'a [Lexeme]), ReadFault>
    ensures { Gives (λ x. (x.0, x.1.now)) result
        (part source.now depth soft grammar.arm lexemes.now) }
{
    let (_, rest) = expect(Terminal::Question, lexemes)?;
    let (value, rest) = chain(alloc, source, &LEVELS, rest, depth, soft)?;
    let (_, rest) = expect(Terminal::Colon, rest)?;
    let (next, rest) = chain(alloc, source, &LEVELS, rest, depth, soft)?;
    Ok(((value, next), rest))
}

/// A choice, and what is in the brackets of its operands.
#[cycle(expr)]
#[tactic(auto, using(crate::proofs::Turns::turns_of), unfolding(crate::specs::Expressions::choice, crate::specs::Expressions::levels, crate::specs::Reading::read))]
fn choice<'a>(
    alloc: Global,
    source: &[u8],
    lexemes: &'a [Lexeme],
    depth: usize,
    soft: bool,
) -> Result<(Expr, &'a [Lexeme]), ReadFault>
    ensures { Gives (λ x. (x.0, x.1.now)) result
        (part source.now depth soft grammar.choice lexemes.now) }
{
    let mut conditions = Items::new(alloc);
    let mut values = Items::new(alloc);
    let (first, mut rest) = chain(alloc, source, &LEVELS, lexemes, depth, soft)?;
    let mut last = Boxed::new(alloc, first)?;
    for _turn in 0..rest.len() {
        if !starts(&[Terminal::Question], rest) {
            break;
        }
        match arm(alloc, source, rest, depth, soft) {
            Ok(((value, next), after)) => {
                let next = Boxed::new(alloc, next)?;
                values.push(value)?;
                conditions.push(last.into_inner())?;
                last = next;
                rest = after;
            }
            Err(fault) if forgives(soft, fault) => break,
            Err(fault) => return Err(fault),
        }
    }
    Ok((choice_of(conditions, values, last.into_inner())?, rest))
}

/// The words with which an expression begins.
pub const EXPRESSION_FIRST: [Terminal; 9] = [
    Terminal::Number,
    Terminal::Upper,
    Terminal::Lower,
    Terminal::OpenParen,
    Terminal::OpenBrace,
    Terminal::Tagged,
    Terminal::Not,
    Terminal::Tilde,
    Terminal::Minus,
];
