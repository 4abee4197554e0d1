//! The tree of a design: its instances with the text of their modules, what that text means, and what stands while it is
//! carried out.
//!
//! Modules in reading order: `statics` (what the variables of a module are), `tree` (the instances), `interface` (the methods
//! of an interface), `whole` (the tree, and what holds of it); `steps` (what is left to do of an element), `values` (what
//! carrying out speaks of), `source` (an element as it was carried out); `fault` (what calls answer), `count`, `value`, `work`
//! (steps), `frame` (variables), `bodies` (what is at the ends of a body), `branches` (the arms of a choice) and `arms` (where
//! they join).
//!
//! What the source means is `specs/meaning`: a reader of the promises reads it and nothing of `specs/carrying`, which is how
//! the code goes about it. That the steps of an element do what its text means is proved in `proofs/meaning`.
#![tactic(auto)]

mod arms;
mod bodies;
mod branches;
mod count;
mod fault;
mod frame;
mod interface;
mod source;
mod statics;
mod steps;
mod tree;
mod value;
mod values;
mod whole;
mod work;

pub use arms::close;
pub use bodies::{arguments, is_integer, loosened, needed, parameters, seen};
pub use branches::{after_arm, either, or_false, value_choice, with_pending, with_value_arm};
pub use count::{counted, tick};
pub use fault::{Counted, Got};
pub use frame::{Locals, assign, front, no_variables, untouched, variable, with_variable};
pub use interface::part_method_number;
pub use source::Source;
pub use statics::{Binding, Static};
pub use steps::{Arm, Atom, Choice, Compute, MethodPlace, Step};
pub use tree::{Built, BuiltRule, Instance, Made};
pub use value::{atom_of, atoms, decided, held, is_static, is_true, opened, truth};
pub use values::{Constant, Count, Fault, Local, Pending, Value, Work};
pub use whole::Tree;
pub use work::{
    Valued, at_count, between, extend, give, inverted, join, no_steps, pick, sign_extend, slice,
    with_step,
};
