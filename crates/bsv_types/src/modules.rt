use crate::attributes::Attribute;
use crate::definitions::{Body, MethodResult, Param};
use crate::expressions::Expr;
use crate::makers::Make;
use crate::statements::{Head, Stmt};
use crate::types::Ty;
use bsv_bits::Name;
use sqlite_items::{Boxed, Items};

/// A rule. The levels of its module's variables that come before it come first in its scope.
#[derive(Drop)]
pub struct Rule {
    pub name: Name,
    pub attributes: Items<Attribute>,
    pub condition: Option<Expr>,
    pub body: Items<Stmt>,
}

/// A method of a module. In its condition the module's variables that come before it are in scope, and
/// in its body its parameters are the levels after them.
#[derive(Drop)]
pub struct Method {
    pub name: Name,
    pub params: Items<Param>,
    pub result: MethodResult,
    pub condition: Option<Expr>,
    pub body: Body,
}

/// A statement of a module.
#[cycle(modules)]
#[derive(Drop)]
pub enum ModuleStmt {
    /// `T x <- make;`: x is the next level.
    Instance(Ty, Name, Make),
    /// `T r[n];`, an array of T: r is the next level.
    Array(Ty, Name, Expr),
    /// `r[i] <- make;`, by the level of r.
    Place(u32, Expr, Make),
    /// A variable with its first value: the next level.
    Declare(Ty, Name, Expr),
    /// `v = e;`, by the level of v.
    Assign(u32, Expr),
    Block(Items<ModuleStmt>),
    /// The arms of an `if`, one or more, and the arm after a last `else`.
    If(Items<ModuleBranch>, Option<Boxed<ModuleStmt>>),
    For(Head, Boxed<ModuleStmt>),
    /// A rule, by its place among the rules of the module.
    Rule(u32),
    /// A method, by its place in the interface.
    Method(u32),
}

/// `if (condition) arm`
#[cycle(modules)]
#[derive(Drop)]
pub struct ModuleBranch {
    pub condition: Expr,
    pub arm: ModuleStmt,
}

/// A module. Its parameters are the first levels of its body.
#[derive(Drop)]
pub struct Module {
    pub name: Name,
    pub attributes: Items<Attribute>,
    pub params: Items<Param>,
    /// The type of its interface.
    pub interface: Ty,
    /// In the order of the text.
    pub rules: Items<Rule>,
    /// In the order of the interface.
    pub methods: Items<Method>,
    pub body: Items<ModuleStmt>,
}
