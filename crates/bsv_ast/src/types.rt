ghost use Rattle.std.specs.Prelude.{◌≡◌};
ghost use Rattle.bsv_ast.specs.Spans.{type_span, argument_span};

use crate::text::{Ident, Literal, Span};
use sqlite_items::Boxed;

/// A type as it is written.
#[cycle(types)]
#[derive(Drop)]
pub enum WrittenType {
    /// `Upper`
    Named(Span, Ident),
    /// `Upper "#" "(" targ ")"`
    Applied(Span, Ident, Boxed<TypeArgument>),
    /// `"int"`
    Int(Span),
}

/// What is in the brackets of a type.
#[cycle(types)]
#[derive(Drop)]
pub enum TypeArgument {
    /// `type`
    Written(Span, WrittenType),
    /// `Number`
    Number(Span, Literal),
}

impl WrittenType {
    /// Where the type stands.
    #[tactic(auto, unfolding(crate::specs::Spans::type_span))]
    pub fn span(&self) -> Span
        ensures { result ≡ type_span self.now }
    {
        match self {
            WrittenType::Named(span, _)
            | WrittenType::Applied(span, _, _)
            | WrittenType::Int(span) => *span,
        }
    }
}

impl TypeArgument {
    /// Where the argument stands.
    #[tactic(auto, unfolding(crate::specs::Spans::argument_span))]
    pub fn span(&self) -> Span
        ensures { result ≡ argument_span self.now }
    {
        match self {
            TypeArgument::Written(span, _) | TypeArgument::Number(span, _) => *span,
        }
    }
}
