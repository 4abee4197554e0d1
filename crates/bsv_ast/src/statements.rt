ghost use Rattle.std.specs.Prelude.{◌≡◌};
ghost use Rattle.bsv_ast.specs.Spans.{place_span, condition_span, declared_span, stmt_span};

use crate::expressions::Expr;
use crate::text::{Ident, Span};
use crate::types::WrittenType;
use sqlite_items::{Boxed, Items};

/// What may be written to.
#[derive(Drop)]
pub enum Place {
    /// `Lower`
    Name(Span, Ident),
    /// `Lower "[" expr "]"`
    Index(Span, Ident, Expr),
}

/// `place "." Lower [ "(" [ exprs ] ")" ]`
#[derive(Drop)]
pub struct Call {
    pub span: Span,
    pub place: Place,
    pub method: Ident,
    pub arguments: Items<Expr>,
}

/// The type in front of a name that is defined.
#[derive(Drop)]
pub enum DeclaredType {
    /// `type`
    Written(Span, WrittenType),
    /// `"let"`
    Let(Span),
}

/// `( type | "let" ) Lower "=" expr ";"`
#[derive(Drop)]
pub struct Declaration {
    pub span: Span,
    pub declared: DeclaredType,
    pub name: Ident,
    pub value: Expr,
}

/// What an `if` asks.
#[derive(Drop)]
pub enum Condition {
    /// `expr`
    Test(Span, Expr),
    /// `expr "matches" "tagged" "Valid" "." Lower`
    Matches(Span, Expr, Ident),
}

/// `"for" "(" "Integer" Lower "=" expr ";" expr ";" Lower "=" expr ")"`
#[derive(Drop)]
pub struct Head {
    pub span: Span,
    pub variable: Ident,
    pub first: Expr,
    pub condition: Expr,
    pub stepped: Ident,
    pub step: Expr,
}

/// A statement of a rule, a method or a function.
#[cycle(statements)]
#[derive(Drop)]
pub enum Stmt {
    /// `place "<=" expr ";"`
    Write(Span, Place, Expr),
    /// `call ";"`
    Call(Span, Call),
    /// `( type | "let" ) Lower "<-" call ";"`
    Bind(Span, DeclaredType, Ident, Call),
    /// `decl`
    Declare(Span, Declaration),
    /// `Lower "=" expr ";"`
    Assign(Span, Ident, Expr),
    /// `"return" expr ";"`
    Return(Span, Expr),
    /// `"noAction" ";"`
    NoAction(Span),
    /// `"begin" { stmt } "end"`
    Block(Span, Items<Stmt>),
    /// The arms of an `if`, one or more, and the arm after a last `else`.
    If(Span, Items<Branch>, Option<Boxed<Stmt>>),
    /// `head ( arm | if | head ( arm | if ) )`
    For(Span, Head, Boxed<Stmt>),
    /// The subject, the arms, and the arm after `default`.
    Case(Span, Expr, Items<CaseArm>, Option<Boxed<Stmt>>),
}

/// `"if" "(" cond ")" arm`
#[cycle(statements)]
#[derive(Drop)]
pub struct Branch {
    pub span: Span,
    pub condition: Condition,
    pub arm: Stmt,
}

/// `exprs ":" ( arm | if )`
#[cycle(statements)]
#[derive(Drop)]
pub struct CaseArm {
    pub span: Span,
    pub labels: Items<Expr>,
    pub arm: Stmt,
}

impl Place {
    /// Where the place stands.
    pub fn span(&self) -> Span
        ensures { result ≡ place_span self.now }
    {
        match self {
            Place::Name(span, _) | Place::Index(span, _, _) => *span,
        }
    }
}

impl DeclaredType {
    /// Where the type stands.
    pub fn span(&self) -> Span
        ensures { result ≡ declared_span self.now }
    {
        match self {
            DeclaredType::Written(span, _) | DeclaredType::Let(span) => *span,
        }
    }
}

impl Condition {
    /// Where the condition stands.
    pub fn span(&self) -> Span
        ensures { result ≡ condition_span self.now }
    {
        match self {
            Condition::Test(span, _) | Condition::Matches(span, _, _) => *span,
        }
    }
}

impl Stmt {
    /// Where the statement stands.
    #[tactic(auto, unfolding(crate::specs::Spans::stmt_span))]
    pub fn span(&self) -> Span
        ensures { result ≡ stmt_span self.now }
    {
        match self {
            Stmt::Write(span, _, _)
            | Stmt::Call(span, _)
            | Stmt::Bind(span, _, _, _)
            | Stmt::Declare(span, _)
            | Stmt::Assign(span, _, _)
            | Stmt::Return(span, _)
            | Stmt::NoAction(span)
            | Stmt::Block(span, _)
            | Stmt::If(span, _, _)
            | Stmt::For(span, _, _)
            | Stmt::Case(span, _, _, _) => *span,
        }
    }
}
