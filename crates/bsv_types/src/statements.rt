use crate::expressions::{Expr, Place};
use crate::types::Ty;
use bsv_bits::Name;
use sqlite_items::{Boxed, Items};

/// A statement of a rule, a method or a function.
#[cycle(statements)]
#[derive(Drop)]
pub enum Stmt {
    /// A variable with its first value: the next level.
    Declare(Ty, Expr),
    /// `v = e`, by the level of v.
    Assign(u32, Expr),
    /// A call of an Action or ActionValue method, a write of a register or a wire among them.
    Act(Place, u32, Items<Expr>),
    /// A variable that takes what an ActionValue method gives: the next level.
    Bind(Ty, Place, u32, Items<Expr>),
    Return(Expr),
    NoAction,
    Block(Items<Stmt>),
    /// The arms of an `if`, one or more, and the arm after a last `else`.
    If(Items<Branch>, Option<Boxed<Stmt>>),
    For(Head, Boxed<Stmt>),
    /// The subject, the arms, and the arm after `default`.
    Case(Expr, Items<CaseArm>, Option<Boxed<Stmt>>),
}

/// What an `if` asks.
#[derive(Drop)]
pub enum Condition {
    Test(Expr),
    /// `e matches tagged Valid .v`: in the arm v is the next level.
    Matches(Expr),
}

/// `if (condition) arm`
#[cycle(statements)]
#[derive(Drop)]
pub struct Branch {
    pub condition: Condition,
    pub arm: Stmt,
}

/// `labels: arm`
#[cycle(statements)]
#[derive(Drop)]
pub struct CaseArm {
    pub labels: Items<Expr>,
    pub arm: Stmt,
}

/// The head of a loop. Its variable is the next level in all but `first`.
#[derive(Drop)]
pub struct Head {
    pub variable: Name,
    pub first: Expr,
    pub condition: Expr,
    /// The level of the variable that the step assigns.
    pub stepped: u32,
    pub step: Expr,
}
