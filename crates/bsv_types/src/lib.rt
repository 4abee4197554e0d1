//! Types, their widths and how their values pack, and the typed tree of a program.
//!
//! Modules in reading order: `types` (what a type is), `operators` (the labels of operators),
//! `expressions`, `statements` (of rules, methods and functions), `attributes`, `attribute_text` (the
//! words and marks of an attribute's text), `asked` (what an attribute asks for), `given` (the
//! functions that the language gives), `makers` (what makes an instance), `modules`, `definitions` (enums, structs, interfaces and functions), `methods` (of an interface,
//! by their names), `widths` (of types),
//! `packing` (laws of widths), `typed` (a whole program, its invariant, widths and packing).
//!
//! Contracts see a tree by value: a `Boxed<T>` as a `T`, an `Items<T>` as the list of its items, a
//! `Name` as its bytes. A variable is named by its level: how many variables come before it in scope,
//! those of the module first. A definition is named by its place in its list of `Typed`, a method by
//! its place in its interface, a rule and a method of a module by its place in the module's list.
#![tactic(auto)]

mod asked;
mod attribute_text;
mod attributes;
mod definitions;
mod expressions;
mod given;
mod makers;
mod methods;
mod modules;
mod operators;
mod packing;
mod statements;
mod typed;
mod types;
mod widths;

pub use asked::{Owner, attribute};
pub use attributes::Attribute;
pub use definitions::{
    Body, Enum, Field, Function, Interface, MethodHeader, MethodResult, Param, Struct,
};
pub use expressions::{Expr, Place};
pub use given::{GivenFunction, given_functions};
pub use makers::{Argument, GivenMaker, Make, Maker, given_makers};
pub use methods::Methods;
pub use modules::{Method, Module, ModuleBranch, ModuleStmt, Rule};
pub use operators::Op;
pub use packing::{fields_are_read_back, packed_fits, tag_is_on_top};
pub use sqlite_items::{Boxed, Items};
pub use statements::{Branch, CaseArm, Condition, Head, Stmt};
pub use typed::Typed;
pub use types::{PartTy, Ty};
pub use widths::{counted_width, counted_widths, least_width};
