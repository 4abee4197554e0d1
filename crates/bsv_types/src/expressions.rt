ghost use Rattle.std.specs.Prelude.{◌≡◌};
ghost use Rattle.bsv_types.specs.Expressions.{expr_type};

use crate::operators::Op;
use crate::types::Ty;
use sqlite_items::{Boxed, Items};

/// An expression. Each has its type first.
#[cycle(expressions)]
#[derive(Drop)]
pub enum Expr {
    /// A number, by its bits; of an enum or of Bool, the number of the label.
    Literal(Ty, u128),
    /// A variable, by its level.
    Variable(Ty, u32),
    /// Operators and their operands from left to right. One operator takes all operands. The operators
    /// of one level, one fewer than operands, take them two by two from the left. The suffixes of one
    /// expression (`Op::Index`, `Op::Slice`, `Op::Field`) are in the order of the text; after that
    /// expression stands the place of each `Op::Index`. In the construction of a struct there is one
    /// `Op::Set` for each operand.
    Apply(Ty, Items<Op>, Items<Expr>),
    /// A call of a function, by its place.
    Call(Ty, u32, Items<Expr>),
    /// A call of a value method, by its place in the interface of what is in front. A read of a
    /// register or a wire is one.
    Method(Ty, Place, u32, Items<Expr>),
    /// `a ? b : c ? d : e` has the conditions a and c, and the values b, d and e.
    Choice(Ty, Items<Expr>, Items<Expr>),
}

/// An instance, by the level of its variable; of an array, with the place in it.
#[cycle(expressions)]
#[derive(Drop)]
pub struct Place {
    pub level: u32,
    pub index: Option<Boxed<Expr>>,
}

impl Expr {
    /// The type that the expression carries.
    #[tactic(auto, unfolding(crate::specs::Expressions::expr_type))]
    pub fn ty(&self) -> &Ty
        ensures { result.now ≡ expr_type self.now }
    {
        match self {
            Expr::Literal(ty, _)
            | Expr::Variable(ty, _)
            | Expr::Apply(ty, _, _)
            | Expr::Call(ty, _, _)
            | Expr::Method(ty, _, _, _)
            | Expr::Choice(ty, _, _) => ty,
        }
    }
}
