ghost use Rattle.std.specs.Prelude.{◌≡◌};
ghost use Rattle.bsv_ast.specs.Spans.{body_span, module_stmt_span};

use crate::expressions::Expr;
use crate::statements::{Declaration, Head, Stmt};
use crate::text::{Ident, Span};
use crate::types::WrittenType;
use bsv_bits::Name;
use sqlite_items::{Boxed, Items};

/// `Lower [ "=" Text ]`
#[derive(Drop)]
pub struct Attribute {
    pub span: Span,
    pub name: Ident,
    /// The bytes between the quotes.
    pub text: Option<Name>,
}

/// `"(*" attr { "," attr } "*)"`
#[derive(Drop)]
pub struct AttributeGroup {
    pub span: Span,
    pub attributes: Items<Attribute>,
}

/// `type Lower`
#[derive(Drop)]
pub struct Param {
    pub span: Span,
    pub written: WrittenType,
    pub name: Ident,
}

/// `Lower [ "(" [ exprs ] ")" ]`, which makes an instance.
#[derive(Drop)]
pub struct Make {
    pub span: Span,
    pub maker: Ident,
    pub arguments: Items<Expr>,
}

/// What a method or a function does.
#[derive(Drop)]
pub enum Body {
    /// `";" { stmt }`, up to the `end` word.
    Statements(Span, Items<Stmt>),
    /// `"=" expr ";"`
    Value(Span, Expr),
}

/// `{ attrs } "rule" Lower [ [ "if" ] "(" expr ")" ] ";" { stmt } "endrule" [ ":" Lower ]`
#[derive(Drop)]
pub struct Rule {
    pub span: Span,
    pub attributes: Items<AttributeGroup>,
    pub name: Ident,
    pub condition: Option<Expr>,
    pub body: Items<Stmt>,
}

/// `"method" mtype Lower [ "(" [ params ] ")" ] [ "if" "(" expr ")" ]`, and its body.
#[derive(Drop)]
pub struct Method {
    pub span: Span,
    pub result: WrittenType,
    pub name: Ident,
    pub params: Items<Param>,
    pub condition: Option<Expr>,
    pub body: Body,
}

/// A statement of a module.
#[cycle(modules)]
#[derive(Drop)]
pub enum ModuleStmt {
    /// `type Lower "<-" make ";"`
    Instance(Span, WrittenType, Ident, Make),
    /// `type Lower "[" expr "]" ";"`
    Array(Span, WrittenType, Ident, Expr),
    /// `Lower "[" expr "]" "<-" make ";"`
    Place(Span, Ident, Expr, Make),
    /// `decl`
    Declare(Span, Declaration),
    /// `Lower "=" expr ";"`
    Assign(Span, Ident, Expr),
    /// `"begin" { mstmt } "end"`
    Block(Span, Items<ModuleStmt>),
    /// The arms of an `if`, one or more, and the arm after a last `else`.
    If(Span, Items<ModuleBranch>, Option<Boxed<ModuleStmt>>),
    /// `head ( marm | mif | head ( marm | mif ) )`
    For(Span, Head, Boxed<ModuleStmt>),
    /// `rule`
    Rule(Span, Rule),
    /// `method`
    Method(Span, Method),
}

/// `"if" "(" expr ")" marm`
#[cycle(modules)]
#[derive(Drop)]
pub struct ModuleBranch {
    pub span: Span,
    pub condition: Expr,
    pub arm: ModuleStmt,
}

/// `{ attrs } "module" Lower [ "#" "(" params ")" ] "(" type ")" ";" { mstmt } "endmodule"
/// [ ":" Lower ]`
#[derive(Drop)]
pub struct Module {
    pub span: Span,
    pub attributes: Items<AttributeGroup>,
    pub name: Ident,
    pub params: Items<Param>,
    pub interface: WrittenType,
    pub body: Items<ModuleStmt>,
}

impl Body {
    /// Where the body stands.
    pub fn span(&self) -> Span
        ensures { result ≡ body_span self.now }
    {
        match self {
            Body::Statements(span, _) | Body::Value(span, _) => *span,
        }
    }
}

impl ModuleStmt {
    /// Where the statement stands.
    #[tactic(auto, unfolding(crate::specs::Spans::module_stmt_span))]
    pub fn span(&self) -> Span
        ensures { result ≡ module_stmt_span self.now }
    {
        match self {
            ModuleStmt::Instance(span, _, _, _)
            | ModuleStmt::Array(span, _, _, _)
            | ModuleStmt::Place(span, _, _, _)
            | ModuleStmt::Declare(span, _)
            | ModuleStmt::Assign(span, _, _)
            | ModuleStmt::Block(span, _)
            | ModuleStmt::If(span, _, _)
            | ModuleStmt::For(span, _, _)
            | ModuleStmt::Rule(span, _)
            | ModuleStmt::Method(span, _) => *span,
        }
    }
}
