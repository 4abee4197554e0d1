ghost use Rattle.bsv_expr.specs.Reading.{Gives};
ghost use Rattle.bsv_parse.specs.Places.{part};
ghost use Rattle.bsv_parse.specs.Definitions as grammar;

use crate::attributes::{groups, start_of};
use crate::bodies::{asked, body, ending, stmts};
use crate::params::{bracketed_params, optional_params};
use bsv_ast::{Boxed, Expr, Function, Ident, Method, Rule, Span, WrittenType};
use bsv_blocks::written;
use bsv_expr::{Lexeme, ReadFault, expect, name, starts, to};
use bsv_lex::Terminal;
use std::alloc::Global;

/// `[ [ "if" ] "(" expr ")" ]`
#[tactic(auto, unfolding(crate::specs::Definitions::rule_condition, bsv_expr::specs::Reading::read))]
fn rule_condition<'a>(
    alloc: Global,
    source: &[u8],
    lexemes: &'a [Lexeme],
    depth: usize,
) -> Result<(Option<Expr>, &'a [Lexeme]), ReadFault>
    ensures { Gives (λ x. (x.0, x.1.now)) result
        (part source.now depth grammar.rule_condition lexemes.now) }
{
    if !starts(&[Terminal::If, Terminal::OpenParen], lexemes) {
        return Ok((None, lexemes));
    }
    if !starts(&[Terminal::If], lexemes) {
        let (found, rest) = asked(alloc, source, lexemes, depth)?;
        return Ok((Some(found), rest));
    }
    let (_, rest) = expect(Terminal::If, lexemes)?;
    let (found, rest) = asked(alloc, source, rest, depth)?;
    Ok((Some(found), rest))
}

/// `{ attrs } "rule" Lower [ [ "if" ] "(" expr ")" ] ";" { stmt } "endrule" [ ":" Lower ]`
#[tactic(auto, unfolding(crate::specs::Definitions::rule, crate::specs::Definitions::rule_front, bsv_expr::specs::Reading::read))]
pub fn rule<'a>(
    alloc: Global,
    source: &[u8],
    lexemes: &'a [Lexeme],
    depth: usize,
) -> Result<(Rule, &'a [Lexeme]), ReadFault>
    ensures { Gives (λ x. (x.0, x.1.now)) result (part source.now depth grammar.rule lexemes.now) }
{
    let (attributes, rest) = groups(alloc, source, lexemes)?;
    let (start, rest) = expect(Terminal::Rule, rest)?;
    let (name, rest) = name(alloc, source, Terminal::Lower, rest)?;
    let (condition, rest) = rule_condition(alloc, source, rest, depth)?;
    let front = Boxed::new(alloc, (attributes, name, condition))?;
    let (_, rest) = expect(Terminal::Semicolon, rest)?;
    let (body, rest) = stmts(alloc, source, rest, depth)?;
    let (close, rest) = expect(Terminal::EndRule, rest)?;
    let named = front.get().1.name.bytes();
    let (close, rest) = ending(source, Terminal::Lower, named, close, rest)?;
    let (attributes, name, condition) = front.into_inner();
    let span = to(start_of(&attributes, start), close);
    let rule = Rule {
        span,
        attributes,
        name,
        condition,
        body,
    };
    Ok((rule, rest))
}

/// A word, `type Lower`
#[tactic(auto, unfolding(crate::specs::Definitions::header, crate::specs::Places::inner, bsv_expr::specs::Reading::read))]
pub fn header<'a>(
    alloc: Global,
    source: &[u8],
    first: Terminal,
    lexemes: &'a [Lexeme],
    depth: usize,
) -> Result<((Span, (WrittenType, Ident)), &'a [Lexeme]), ReadFault>
    ensures { Gives (λ x. (x.0, x.1.now)) result
        (part source.now depth (grammar.header first) lexemes.now) }
{
    let (start, rest) = expect(first, lexemes)?;
    let (written, rest) = written(alloc, source, rest, depth)?;
    let (name, rest) = name(alloc, source, Terminal::Lower, rest)?;
    Ok(((start, (written, name)), rest))
}

/// `[ "if" "(" expr ")" ]`
#[tactic(auto, unfolding(crate::specs::Definitions::method_condition, bsv_expr::specs::Reading::read))]
fn method_condition<'a>(
    alloc: Global,
    source: &[u8],
    lexemes: &'a [Lexeme],
    depth: usize,
) -> Result<(Option<Expr>, &'a [Lexeme]), ReadFault>
    ensures { Gives (λ x. (x.0, x.1.now)) result
        (part source.now depth grammar.method_condition lexemes.now) }
{
    if !starts(&[Terminal::If], lexemes) {
        return Ok((None, lexemes));
    }
    let (_, rest) = expect(Terminal::If, lexemes)?;
    let (found, rest) = asked(alloc, source, rest, depth)?;
    Ok((Some(found), rest))
}

/// `"method" mtype Lower [ "(" [ params ] ")" ] [ "if" "(" expr ")" ]`, and its body.
#[tactic(auto, unfolding(crate::specs::Definitions::method, bsv_expr::specs::Reading::read))]
pub fn method<'a>(
    alloc: Global,
    source: &[u8],
    lexemes: &'a [Lexeme],
    depth: usize,
) -> Result<(Method, &'a [Lexeme]), ReadFault>
    ensures { Gives (λ x. (x.0, x.1.now)) result
        (part source.now depth grammar.method lexemes.now) }
{
    let first = Terminal::Method;
    let ((start, front), rest) = header(alloc, source, first, lexemes, depth)?;
    let front = Boxed::new(alloc, front)?;
    let (params, rest) = optional_params(alloc, source, rest, depth)?;
    let (condition, rest) = method_condition(alloc, source, rest, depth)?;
    let condition = Boxed::new(alloc, condition)?;
    let last = Terminal::EndMethod;
    let named = front.get().1.name.bytes();
    let ((body, close), rest) = body(alloc, source, last, named, rest, depth)?;
    let (result, name) = front.into_inner();
    let span = to(start, close);
    let method = Method {
        span,
        result,
        name,
        params,
        condition: condition.into_inner(),
        body,
    };
    Ok((method, rest))
}

/// `"function" type Lower "(" [ params ] ")"`, and its body.
#[tactic(auto, unfolding(crate::specs::Definitions::function, bsv_expr::specs::Reading::read))]
pub fn function<'a>(
    alloc: Global,
    source: &[u8],
    lexemes: &'a [Lexeme],
    depth: usize,
) -> Result<(Function, &'a [Lexeme]), ReadFault>
    ensures { Gives (λ x. (x.0, x.1.now)) result
        (part source.now depth grammar.function lexemes.now) }
{
    let first = Terminal::Function;
    let ((start, front), rest) = header(alloc, source, first, lexemes, depth)?;
    let front = Boxed::new(alloc, front)?;
    let (params, rest) = bracketed_params(alloc, source, rest, depth)?;
    let last = Terminal::EndFunction;
    let named = front.get().1.name.bytes();
    let ((body, close), rest) = body(alloc, source, last, named, rest, depth)?;
    let (result, name) = front.into_inner();
    let span = to(start, close);
    let function = Function {
        span,
        result,
        name,
        params,
        body,
    };
    Ok((function, rest))
}
