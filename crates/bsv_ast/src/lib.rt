//! The syntax tree of a package: what a source says, without its blanks and comments. Plain values,
//! which are built and dropped, and which tell where they stand.
//!
//! Modules in reading order: `text` (places, names, numbers, and the bytes of names), `types`, `expressions`,
//! `statements` (of rules, methods and functions), `modules` (what is in a module), `package`
//! (a file and its definitions).
//!
//! Contracts see a tree by value: a `Boxed<T>` as a `T`, an `Items<T>` as the list of its items, a
//! `Name` as its bytes. Each node has a span, from the first byte of its first token to the end of
//! its last one. Each production of the grammar has one home:
//!
//! | Production | Type |
//! |---|---|
//! | `file` | `Package`, a variant for each form |
//! | `item`, `import`, `typedef` | `Item`, `Import`, `Typedef` (a variant for each form) |
//! | `deriving` | the last list of `Typedef::Enum` and `Typedef::Struct`, empty where it is left out |
//! | `type`, `mtype`, `targ` | `WrittenType`, `TypeArgument` |
//! | `params` | a list of `Param`, empty where they are left out |
//! | `interface`, `function`, `module` | `Interface` with `MethodHeader`s, `Function`, `Module` |
//! | `mstmt`, `msimple`, `marm`, `mblock` | `ModuleStmt`, a variant for each form |
//! | `make` | `Make` |
//! | `mif`, `mfor` | `ModuleStmt::If` with `ModuleBranch`es, `ModuleStmt::For` |
//! | `head` | `Head` |
//! | `rule`, `method` | `Rule`, `Method`; what comes after the head of a method or a function is a `Body` |
//! | `attrs`, `attr` | `AttributeGroup`, `Attribute` |
//! | `stmt`, `simple`, `arm`, `block` | `Stmt`, a variant for each form |
//! | `decl`, `place`, `call` | `Declaration` with its `DeclaredType`, `Place`, `Call` |
//! | `if`, `cond`, `for`, `case` | `Stmt::If` with `Branch`es, `Condition`, `Stmt::For`, `Stmt::Case` with `CaseArm`s |
//! | `exprs` | a list of `Expr` |
//! | `expr`, `e1` | `Expr::Choice`, `Expr::Chain`; one operand alone is that operand |
//! | `unary` | `Expr::Unary`, `Expr::Valid`, `Expr::Invalid` |
//! | `postfix` | `Expr::Postfix` with `Suffix`es |
//! | `primary` | `Expr`, a variant for each form; brackets that only group are an `Expr::Group` |
//!
//! A name after an `end` word equals the one that it ends, so the tree has it once.
#![tactic(auto)]

mod expressions;
mod modules;
mod package;
mod statements;
mod text;
mod types;

pub use expressions::{Expr, FieldValue, Level, Operator, Suffix, UnaryOperator};
pub use modules::{
    Attribute, AttributeGroup, Body, Make, Method, Module, ModuleBranch, ModuleStmt, Param, Rule,
};
pub use package::{Field, Function, Import, Interface, Item, MethodHeader, Package, Typedef};
pub use sqlite_items::{Boxed, Items};
pub use statements::{
    Branch, Call, CaseArm, Condition, Declaration, DeclaredType, Head, Place, Stmt,
};
pub use text::{Base, Ident, Literal, Span, begins_name, is_word};
pub use types::{TypeArgument, WrittenType};
