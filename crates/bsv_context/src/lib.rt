//! What an expression may name, and what the typing knows of types.
//!
//! Modules in reading order: `fail` (why there is no typed expression), `made` (typed expressions),
//! `names` (which texts are names), `context` (what an expression may name), `classes` (classes of
//! types, and which literals fit), `methods` (the methods of interfaces), `written` (types as they
//! are written).
//!
//! The definitions are `specs/Env.antt` (what an expression may name, and how typed expressions are
//! made), `specs/Suffixes.antt` (expressions with suffixes), `specs/Methods.antt` (methods by name)
//! and `specs/Written.antt` (what a written type stands for). `specs/Seen.antt` says what they see
//! of the code.
#![tactic(auto)]

mod classes;
mod context;
mod fail;
mod made;
mod methods;
mod names;
mod written;

pub use classes::{
    below, beside, capped, fits, fits_negated, has_family, is_amount, is_below_power, is_bit,
    is_interface, is_number, no_wider,
};
pub use context::{Context, FunctionHeader, Label, Slot, Variable};
pub use fail::Fail;
pub use made::{
    TypedExpr, applied, applied_to_one, applied_to_two, as_wanted, called, chosen, literal, one,
    with_suffix,
};
pub use methods::{FoundMethod, MethodEffect, Params, method_count, method_named};
pub use names::{is_lower, is_upper};
pub use written::{written_effect, written_type};
