ghost use Rattle.std.specs.Prelude.{◌≡◌, [], ◌∷◌};
ghost use Rattle.bsv_expr.specs.Reading.{Gives, take_leaf};
ghost use Rattle.bsv_blocks.specs.Holes.{part};
ghost use Rattle.bsv_blocks.specs.Simple as grammar;
ghost use Rattle.bsv_blocks.specs.StatementTrees as trees;

use crate::types::written;
use bsv_ast::{
    Boxed, Call, Condition, Declaration, DeclaredType, Expr, Head, Ident, Items, Place, Span, Stmt,
};
use bsv_expr::{
    Lexeme, ReadFault, arguments, expect, expr, name, refusal, same_terminal, starts, text, to,
};
use bsv_lex::Terminal;
use std::alloc::Global;

/// A place, or one of an array.
fn place_of(name: Ident, found: Option<(Expr, Span)>) -> Place
    ensures { result ≡ trees.place_of name found }
{
    match found {
        None => Place::Name(name.span, name),
        Some((at, close)) => Place::Index(to(name.span, close), name, at),
    }
}

/// A call of a method of a place.
fn call_of(alloc: Global, place: Place, method: Ident, found: Option<(Items<Expr>, Span)>) -> Call
    ensures { result ≡ trees.call_of place (method, found) }
{
    match found {
        None => Call {
            span: to(place.span(), method.span),
            place,
            method,
            arguments: Items::new(alloc),
        },
        Some((arguments, close)) => Call {
            span: to(place.span(), close),
            place,
            method,
            arguments,
        },
    }
}

/// A name of this text, and the tokens after it.
#[tactic(auto, unfolding(bsv_expr::specs::Reading::take_leaf))]
pub fn word<'a>(
    source: &[u8],
    terminal: Terminal,
    wanted: &[u8],
    lexemes: &'a [Lexeme],
) -> Result<(Span, &'a [Lexeme]), ReadFault>
    ensures { Gives (λ x. (x.0, x.1.now)) result
        (take_leaf source.now (terminal ∷ []) (grammar.told_as wanted.now) lexemes.now) }
{
    match lexemes {
        [next, rest @ ..] if same_terminal(next.terminal, terminal) => {
            if text(source, next.span) == wanted {
                Ok((next.span, rest))
            } else {
                Err(refusal(lexemes))
            }
        }
        _ => Err(refusal(lexemes)),
    }
}

/// `expr ";"`, and where the `;` stands.
#[tactic(auto, unfolding(crate::specs::Simple::ended, crate::specs::Holes::inner, bsv_expr::specs::Reading::read))]
pub fn ended<'a>(
    alloc: Global,
    source: &[u8],
    lexemes: &'a [Lexeme],
    depth: usize,
) -> Result<((Expr, Span), &'a [Lexeme]), ReadFault>
    ensures { Gives (λ x. (x.0, x.1.now)) result (part source.now depth grammar.ended lexemes.now) }
{
    let (found, rest) = expr(alloc, source, lexemes, depth, false)?;
    let (end, rest) = expect(Terminal::Semicolon, rest)?;
    Ok(((found, end), rest))
}

/// `"[" expr "]"`, if it is there, and where its `]` stands.
#[tactic(auto, unfolding(crate::specs::Simple::index, crate::specs::Holes::inner, bsv_expr::specs::Reading::read))]
fn index<'a>(
    alloc: Global,
    source: &[u8],
    lexemes: &'a [Lexeme],
    depth: usize,
) -> Result<(Option<(Expr, Span)>, &'a [Lexeme]), ReadFault>
    ensures { Gives (λ x. (x.0, x.1.now)) result (part source.now depth grammar.index lexemes.now) }
{
    if !starts(&[Terminal::OpenBracket], lexemes) {
        return Ok((None, lexemes));
    }
    let (_, rest) = expect(Terminal::OpenBracket, lexemes)?;
    let (found, rest) = expr(alloc, source, rest, depth, false)?;
    let (close, rest) = expect(Terminal::CloseBracket, rest)?;
    Ok((Some((found, close)), rest))
}

/// `Lower [ "[" expr "]" ]`
#[tactic(auto, unfolding(crate::specs::Simple::place, crate::specs::Holes::inner, bsv_expr::specs::Reading::read))]
fn place<'a>(
    alloc: Global,
    source: &[u8],
    lexemes: &'a [Lexeme],
    depth: usize,
) -> Result<(Place, &'a [Lexeme]), ReadFault>
    ensures { Gives (λ x. (x.0, x.1.now)) result (part source.now depth grammar.place lexemes.now) }
{
    let (name, rest) = name(alloc, source, Terminal::Lower, lexemes)?;
    let (found, rest) = index(alloc, source, rest, depth)?;
    Ok((place_of(name, found), rest))
}

/// `"(" [ exprs ] ")"`, if it is there, and where its `)` stands.
#[tactic(auto, unfolding(crate::specs::Simple::optional_arguments, crate::specs::Holes::inner, bsv_expr::specs::Reading::read))]
pub fn optional_arguments<'a>(
    alloc: Global,
    source: &[u8],
    lexemes: &'a [Lexeme],
    depth: usize,
) -> Result<(Option<(Items<Expr>, Span)>, &'a [Lexeme]), ReadFault>
    ensures { Gives (λ x. (x.0, x.1.now)) result
        (part source.now depth grammar.optional_arguments lexemes.now) }
{
    if !starts(&[Terminal::OpenParen], lexemes) {
        return Ok((None, lexemes));
    }
    let (found, rest) = arguments(alloc, source, lexemes, depth)?;
    Ok((Some(found), rest))
}

/// `"." Lower [ "(" [ exprs ] ")" ]`
#[tactic(auto, unfolding(crate::specs::Simple::called, crate::specs::Holes::inner, bsv_expr::specs::Reading::read))]
fn called<'a>(
    alloc: Global,
    source: &[u8],
    lexemes: &'a [Lexeme],
    depth: usize,
) -> Result<((Ident, Option<(Items<Expr>, Span)>), &'a [Lexeme]), ReadFault>
    ensures { Gives (λ x. (x.0, x.1.now)) result
        (part source.now depth grammar.called lexemes.now) }
{
    let (_, rest) = expect(Terminal::Dot, lexemes)?;
    let (method, rest) = name(alloc, source, Terminal::Lower, rest)?;
    let (found, rest) = optional_arguments(alloc, source, rest, depth)?;
    Ok(((method, found), rest))
}

/// `place "." Lower [ "(" [ exprs ] ")" ]`
#[tactic(auto, unfolding(crate::specs::Simple::call, crate::specs::Holes::inner, bsv_expr::specs::Reading::read))]
fn call<'a>(
    alloc: Global,
    source: &[u8],
    lexemes: &'a [Lexeme],
    depth: usize,
) -> Result<(Call, &'a [Lexeme]), ReadFault>
    ensures { Gives (λ x. (x.0, x.1.now)) result (part source.now depth grammar.call lexemes.now) }
{
    let (place, rest) = place(alloc, source, lexemes, depth)?;
    let ((method, found), rest) = called(alloc, source, rest, depth)?;
    Ok((call_of(alloc, place, method, found), rest))
}

/// `"<=" expr ";"` after a place.
#[tactic(auto, unfolding(crate::specs::Simple::write, crate::specs::Holes::inner, bsv_expr::specs::Reading::read))]
fn write<'a>(
    alloc: Global,
    source: &[u8],
    place: Place,
    lexemes: &'a [Lexeme],
    depth: usize,
) -> Result<(Stmt, &'a [Lexeme]), ReadFault>
    ensures { Gives (λ x. (x.0, x.1.now)) result
        (part source.now depth (grammar.write place) lexemes.now) }
{
    let place = Boxed::new(alloc, place)?;
    let (_, rest) = expect(Terminal::LessEqual, lexemes)?;
    let ((value, end), rest) = ended(alloc, source, rest, depth)?;
    let span = to(place.get().span(), end);
    Ok((Stmt::Write(span, place.into_inner(), value), rest))
}

/// A call after its place, and a `;`.
#[tactic(auto, unfolding(crate::specs::Simple::call_end, crate::specs::Holes::inner, bsv_expr::specs::Reading::read))]
fn call_end<'a>(
    alloc: Global,
    source: &[u8],
    place: Place,
    lexemes: &'a [Lexeme],
    depth: usize,
) -> Result<(Stmt, &'a [Lexeme]), ReadFault>
    ensures { Gives (λ x. (x.0, x.1.now)) result
        (part source.now depth (grammar.call_end place) lexemes.now) }
{
    let place = Boxed::new(alloc, place)?;
    let (found, rest) = called(alloc, source, lexemes, depth)?;
    let found = Boxed::new(alloc, found)?;
    let (end, rest) = expect(Terminal::Semicolon, rest)?;
    let span = to(place.get().span(), end);
    let (method, found) = found.into_inner();
    let call = call_of(alloc, place.into_inner(), method, found);
    Ok((Stmt::Call(span, call), rest))
}

/// `"=" expr ";"` after a name.
#[tactic(auto, unfolding(crate::specs::Simple::assign, crate::specs::Holes::inner, bsv_expr::specs::Reading::read, bsv_expr::specs::Reading::take_leaf))]
fn assign<'a>(
    alloc: Global,
    source: &[u8],
    place: Place,
    lexemes: &'a [Lexeme],
    depth: usize,
) -> Result<(Stmt, &'a [Lexeme]), ReadFault>
    ensures { Gives (λ x. (x.0, x.1.now)) result
        (part source.now depth (grammar.assign place) lexemes.now) }
{
    let Place::Name(span, name) = place else {
        return Err(refusal(lexemes));
    };
    let (_, rest) = expect(Terminal::Equal, lexemes)?;
    let ((value, end), rest) = ended(alloc, source, rest, depth)?;
    Ok((Stmt::Assign(to(span, end), name, value), rest))
}

/// What is done with a place.
#[tactic(auto, unfolding(crate::specs::Simple::used, crate::specs::Holes::inner, bsv_expr::specs::Reading::read))]
fn used<'a>(
    alloc: Global,
    source: &[u8],
    place: Place,
    lexemes: &'a [Lexeme],
    depth: usize,
) -> Result<(Stmt, &'a [Lexeme]), ReadFault>
    ensures { Gives (λ x. (x.0, x.1.now)) result
        (part source.now depth (grammar.used place) lexemes.now) }
{
    if starts(&[Terminal::LessEqual], lexemes) {
        return write(alloc, source, place, lexemes, depth);
    }
    if starts(&[Terminal::Dot], lexemes) {
        return call_end(alloc, source, place, lexemes, depth);
    }
    assign(alloc, source, place, lexemes, depth)
}

/// A statement that begins with a place.
#[tactic(auto, unfolding(crate::specs::Simple::name_led, crate::specs::Holes::inner, bsv_expr::specs::Reading::read))]
fn name_led<'a>(
    alloc: Global,
    source: &[u8],
    lexemes: &'a [Lexeme],
    depth: usize,
) -> Result<(Stmt, &'a [Lexeme]), ReadFault>
    ensures { Gives (λ x. (x.0, x.1.now)) result
        (part source.now depth grammar.name_led lexemes.now) }
{
    let (place, rest) = place(alloc, source, lexemes, depth)?;
    used(alloc, source, place, rest, depth)
}

/// `type | "let"`
#[tactic(auto, unfolding(crate::specs::Simple::declared, crate::specs::Holes::inner, bsv_expr::specs::Reading::read))]
pub fn declared<'a>(
    alloc: Global,
    source: &[u8],
    lexemes: &'a [Lexeme],
    depth: usize,
) -> Result<(DeclaredType, &'a [Lexeme]), ReadFault>
    ensures { Gives (λ x. (x.0, x.1.now)) result
        (part source.now depth grammar.declared lexemes.now) }
{
    if starts(&[Terminal::Let], lexemes) {
        let (span, rest) = expect(Terminal::Let, lexemes)?;
        return Ok((DeclaredType::Let(span), rest));
    }
    let (found, rest) = written(alloc, source, lexemes, depth)?;
    Ok((DeclaredType::Written(found.span(), found), rest))
}

/// `"<-" call ";"`, and where the `;` stands.
#[tactic(auto, unfolding(crate::specs::Simple::bound, crate::specs::Holes::inner, bsv_expr::specs::Reading::read))]
fn bound<'a>(
    alloc: Global,
    source: &[u8],
    lexemes: &'a [Lexeme],
    depth: usize,
) -> Result<((Call, Span), &'a [Lexeme]), ReadFault>
    ensures { Gives (λ x. (x.0, x.1.now)) result (part source.now depth grammar.bound lexemes.now) }
{
    let (_, rest) = expect(Terminal::LeftArrow, lexemes)?;
    let (call, rest) = call(alloc, source, rest, depth)?;
    let (end, rest) = expect(Terminal::Semicolon, rest)?;
    Ok(((call, end), rest))
}

/// What a new name is given.
#[tactic(auto, unfolding(crate::specs::Simple::given, crate::specs::Holes::inner, bsv_expr::specs::Reading::read))]
fn given<'a>(
    alloc: Global,
    source: &[u8],
    declared: DeclaredType,
    name: Ident,
    lexemes: &'a [Lexeme],
    depth: usize,
) -> Result<(Stmt, &'a [Lexeme]), ReadFault>
    ensures { Gives (λ x. (x.0, x.1.now)) result
        (part source.now depth (grammar.given (declared, name)) lexemes.now) }
{
    let start = declared.span();
    let declared = Boxed::new(alloc, declared)?;
    if starts(&[Terminal::LeftArrow], lexemes) {
        let ((call, end), rest) = bound(alloc, source, lexemes, depth)?;
        let span = to(start, end);
        return Ok((Stmt::Bind(span, declared.into_inner(), name, call), rest));
    }
    let (_, rest) = expect(Terminal::Equal, lexemes)?;
    let ((value, end), rest) = ended(alloc, source, rest, depth)?;
    let span = to(start, end);
    let declaration = Declaration {
        span,
        declared: declared.into_inner(),
        name,
        value,
    };
    Ok((Stmt::Declare(span, declaration), rest))
}

/// A statement that begins with a type or `let`.
#[tactic(auto, unfolding(crate::specs::Simple::type_led, crate::specs::Holes::inner, bsv_expr::specs::Reading::read))]
fn type_led<'a>(
    alloc: Global,
    source: &[u8],
    lexemes: &'a [Lexeme],
    depth: usize,
) -> Result<(Stmt, &'a [Lexeme]), ReadFault>
    ensures { Gives (λ x. (x.0, x.1.now)) result
        (part source.now depth grammar.type_led lexemes.now) }
{
    let (declared, rest) = declared(alloc, source, lexemes, depth)?;
    let (name, rest) = name(alloc, source, Terminal::Lower, rest)?;
    given(alloc, source, declared, name, rest, depth)
}

/// `"return" expr ";"`
#[tactic(auto, unfolding(crate::specs::Simple::returned, crate::specs::Holes::inner, bsv_expr::specs::Reading::read))]
fn returned<'a>(
    alloc: Global,
    source: &[u8],
    lexemes: &'a [Lexeme],
    depth: usize,
) -> Result<(Stmt, &'a [Lexeme]), ReadFault>
    ensures { Gives (λ x. (x.0, x.1.now)) result
        (part source.now depth grammar.returned lexemes.now) }
{
    let (start, rest) = expect(Terminal::Return, lexemes)?;
    let ((value, end), rest) = ended(alloc, source, rest, depth)?;
    Ok((Stmt::Return(to(start, end), value), rest))
}

/// `"noAction" ";"`
#[tactic(auto, unfolding(crate::specs::Simple::no_action, crate::specs::Holes::inner, bsv_expr::specs::Reading::read))]
fn no_action<'a>(
    alloc: Global,
    source: &[u8],
    lexemes: &'a [Lexeme],
    depth: usize,
) -> Result<(Stmt, &'a [Lexeme]), ReadFault>
    ensures { Gives (λ x. (x.0, x.1.now)) result
        (part source.now depth grammar.no_action lexemes.now) }
{
    let (start, rest) = expect(Terminal::NoAction, lexemes)?;
    let (end, rest) = expect(Terminal::Semicolon, rest)?;
    Ok((Stmt::NoAction(to(start, end)), rest))
}

/// A statement that holds no other.
#[tactic(auto, unfolding(crate::specs::Simple::simple, crate::specs::Holes::inner, bsv_expr::specs::Reading::read))]
pub fn simple<'a>(
    alloc: Global,
    source: &[u8],
    lexemes: &'a [Lexeme],
    depth: usize,
) -> Result<(Stmt, &'a [Lexeme]), ReadFault>
    ensures { Gives (λ x. (x.0, x.1.now)) result
        (part source.now depth grammar.simple lexemes.now) }
{
    if starts(&[Terminal::Lower], lexemes) {
        return name_led(alloc, source, lexemes, depth);
    }
    if starts(&[Terminal::Return], lexemes) {
        return returned(alloc, source, lexemes, depth);
    }
    if starts(&[Terminal::NoAction], lexemes) {
        return no_action(alloc, source, lexemes, depth);
    }
    type_led(alloc, source, lexemes, depth)
}

/// `Lower "=" expr`
#[tactic(auto, unfolding(crate::specs::Simple::assignment, crate::specs::Holes::inner, bsv_expr::specs::Reading::read))]
fn assignment<'a>(
    alloc: Global,
    source: &[u8],
    lexemes: &'a [Lexeme],
    depth: usize,
) -> Result<((Ident, Expr), &'a [Lexeme]), ReadFault>
    ensures { Gives (λ x. (x.0, x.1.now)) result
        (part source.now depth grammar.assignment lexemes.now) }
{
    let (variable, rest) = name(alloc, source, Terminal::Lower, lexemes)?;
    let (_, rest) = expect(Terminal::Equal, rest)?;
    let (value, rest) = expr(alloc, source, rest, depth, false)?;
    Ok(((variable, value), rest))
}

/// What is in the brackets of a `for`: the variable and its first value, the condition, and the
/// variable that is stepped and its next value.
#[tactic(auto, unfolding(crate::specs::Simple::heading, crate::specs::Holes::inner, bsv_expr::specs::Reading::read))]
fn heading<'a>(
    alloc: Global,
    source: &[u8],
    lexemes: &'a [Lexeme],
    depth: usize,
) -> Result<(((Ident, Expr), (Expr, (Ident, Expr))), &'a [Lexeme]), ReadFault>
    ensures { Gives (λ x. (x.0, x.1.now)) result
        (part source.now depth grammar.heading lexemes.now) }
{
    let (_, rest) = word(source, Terminal::Upper, b"Integer", lexemes)?;
    let (first, rest) = assignment(alloc, source, rest, depth)?;
    let first = Boxed::new(alloc, first)?;
    let (_, rest) = expect(Terminal::Semicolon, rest)?;
    let (condition, rest) = expr(alloc, source, rest, depth, false)?;
    let condition = Boxed::new(alloc, condition)?;
    let (_, rest) = expect(Terminal::Semicolon, rest)?;
    let (step, rest) = assignment(alloc, source, rest, depth)?;
    let found = (first.into_inner(), (condition.into_inner(), step));
    Ok((found, rest))
}

/// `"for" "(" "Integer" Lower "=" expr ";" expr ";" Lower "=" expr ")"`
#[tactic(auto, unfolding(crate::specs::Simple::head, crate::specs::Holes::inner, bsv_expr::specs::Reading::read))]
pub fn head<'a>(
    alloc: Global,
    source: &[u8],
    lexemes: &'a [Lexeme],
    depth: usize,
) -> Result<(Head, &'a [Lexeme]), ReadFault>
    ensures { Gives (λ x. (x.0, x.1.now)) result (part source.now depth grammar.head lexemes.now) }
{
    let (start, rest) = expect(Terminal::For, lexemes)?;
    let (_, rest) = expect(Terminal::OpenParen, rest)?;
    let (found, rest) = heading(alloc, source, rest, depth)?;
    let found = Boxed::new(alloc, found)?;
    let (close, rest) = expect(Terminal::CloseParen, rest)?;
    let ((variable, first), (condition, (stepped, step))) = found.into_inner();
    let head = Head {
        span: to(start, close),
        variable,
        first,
        condition,
        stepped,
        step,
    };
    Ok((head, rest))
}

/// What an `if` asks: an expression, or whether it matches.
fn condition_of(subject: Expr, found: Option<Ident>) -> Condition
    ensures { result ≡ trees.condition_of subject found }
{
    match found {
        None => Condition::Test(subject.span(), subject),
        Some(name) => Condition::Matches(to(subject.span(), name.span), subject, name),
    }
}

/// `"matches" "tagged" "Valid" "." Lower`, if it is there: the name.
#[tactic(auto, unfolding(crate::specs::Simple::matched, crate::specs::Holes::inner, bsv_expr::specs::Reading::read))]
fn matched<'a>(
    alloc: Global,
    source: &[u8],
    lexemes: &'a [Lexeme],
    depth: usize,
) -> Result<(Option<Ident>, &'a [Lexeme]), ReadFault>
    ensures { Gives (λ x. (x.0, x.1.now)) result
        (part source.now depth grammar.matched lexemes.now) }
{
    if !starts(&[Terminal::Matches], lexemes) {
        return Ok((None, lexemes));
    }
    let (_, rest) = expect(Terminal::Matches, lexemes)?;
    let (_, rest) = expect(Terminal::Tagged, rest)?;
    let (_, rest) = word(source, Terminal::Upper, b"Valid", rest)?;
    let (_, rest) = expect(Terminal::Dot, rest)?;
    let (found, rest) = name(alloc, source, Terminal::Lower, rest)?;
    Ok((Some(found), rest))
}

/// `expr [ "matches" "tagged" "Valid" "." Lower ]`
#[tactic(auto, unfolding(crate::specs::Simple::condition, crate::specs::Holes::inner, bsv_expr::specs::Reading::read))]
pub fn condition<'a>(
    alloc: Global,
    source: &[u8],
    lexemes: &'a [Lexeme],
    depth: usize,
) -> Result<(Condition, &'a [Lexeme]), ReadFault>
    ensures { Gives (λ x. (x.0, x.1.now)) result
        (part source.now depth grammar.condition lexemes.now) }
{
    let (subject, rest) = expr(alloc, source, lexemes, depth, false)?;
    let (found, rest) = matched(alloc, source, rest, depth)?;
    Ok((condition_of(subject, found), rest))
}
