ghost use Rattle.std.specs.Prelude.{◌≡◌};
ghost use Rattle.bsv_ast.specs.Spans.{expr_span, suffix_span};

use crate::text::{Ident, Literal, Span};
use sqlite_items::{Boxed, Items};

/// The operators that come before one operand.
#[derive(Clone, Copy, Debug, PartialEq, Eq)]
pub enum UnaryOperator {
    /// `!`
    Not,
    /// `~`
    Complement,
    /// `-`
    Negate,
}

/// The ten levels of operators, from the tightest to the loosest.
#[derive(Clone, Copy, Debug, PartialEq, Eq)]
pub enum Level {
    /// `*`
    Product,
    /// `+ -`
    Sum,
    /// `<< >>`
    Shift,
    /// `< <= > >=`
    Order,
    /// `== !=`
    Equality,
    /// `&`
    And,
    /// `^`
    Xor,
    /// `|`
    Or,
    /// `&&`
    Both,
    /// `||`
    Either,
}

/// The operators that are between two operands, level by level.
#[derive(Clone, Copy, Debug, PartialEq, Eq)]
pub enum Operator {
    /// `*`
    Mul,
    /// `+`
    Add,
    /// `-`
    Sub,
    /// `<<`
    Shl,
    /// `>>`
    Shr,
    /// `<`
    Less,
    /// `<=`
    LessOrSame,
    /// `>`
    Greater,
    /// `>=`
    GreaterOrSame,
    /// `==`
    Same,
    /// `!=`
    Different,
    /// `&`
    And,
    /// `^`
    Xor,
    /// `|`
    Or,
    /// `&&`
    Both,
    /// `||`
    Either,
}

/// An expression.
#[cycle(expressions)]
#[derive(Drop)]
pub enum Expr {
    /// `Number`
    Number(Span, Literal),
    /// `Upper`
    Label(Span, Ident),
    /// `Lower`
    Name(Span, Ident),
    /// `Lower "(" [ exprs ] ")"`
    Call(Span, Ident, Items<Expr>),
    /// `"(" expr ")"`
    Group(Span, Boxed<Expr>),
    /// `"{" exprs "}"`
    Concat(Span, Items<Expr>),
    /// `Upper "{" Lower ":" expr { "," Lower ":" expr } "}"`
    Struct(Span, Ident, Items<FieldValue>),
    /// A primary with one or more suffixes.
    Postfix(Span, Boxed<Expr>, Items<Suffix>),
    /// `( "!" | "~" | "-" ) postfix`
    Unary(Span, UnaryOperator, Boxed<Expr>),
    /// `"tagged" "Valid" postfix`
    Valid(Span, Boxed<Expr>),
    /// `"tagged" "Invalid"`
    Invalid(Span),
    /// The operands of one level, two or more, from left to right, and between them its operators,
    /// one fewer.
    Chain(Span, Level, Items<Operator>, Items<Expr>),
    /// `a ? b : c ? d : e` has the conditions a and c, and the values b, d and e.
    Choice(Span, Items<Expr>, Items<Expr>),
}

/// `Lower ":" expr`
#[cycle(expressions)]
#[derive(Drop)]
pub struct FieldValue {
    pub span: Span,
    pub field: Ident,
    pub value: Expr,
}

/// What comes after a primary.
#[cycle(expressions)]
#[derive(Drop)]
pub enum Suffix {
    /// `"." Lower`
    Member(Span, Ident),
    /// `"." Lower "(" [ exprs ] ")"`
    Method(Span, Ident, Items<Expr>),
    /// `"[" expr "]"`
    Index(Span, Expr),
    /// `"[" expr ":" expr "]"`
    Slice(Span, Expr, Expr),
}

impl Expr {
    /// Where the expression stands.
    #[tactic(auto, unfolding(crate::specs::Spans::expr_span))]
    pub fn span(&self) -> Span
        ensures { result ≡ expr_span self.now }
    {
        match self {
            Expr::Number(span, _)
            | Expr::Label(span, _)
            | Expr::Name(span, _)
            | Expr::Call(span, _, _)
            | Expr::Group(span, _)
            | Expr::Concat(span, _)
            | Expr::Struct(span, _, _)
            | Expr::Postfix(span, _, _)
            | Expr::Unary(span, _, _)
            | Expr::Valid(span, _)
            | Expr::Invalid(span)
            | Expr::Chain(span, _, _, _)
            | Expr::Choice(span, _, _) => *span,
        }
    }
}

impl Suffix {
    /// Where the suffix stands.
    #[tactic(auto, unfolding(crate::specs::Spans::suffix_span))]
    pub fn span(&self) -> Span
        ensures { result ≡ suffix_span self.now }
    {
        match self {
            Suffix::Member(span, _)
            | Suffix::Method(span, _, _)
            | Suffix::Index(span, _)
            | Suffix::Slice(span, _, _) => *span,
        }
    }
}
