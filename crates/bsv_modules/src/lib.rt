//! Typing of what a program defines: its types, its functions, and its modules with their statements, rules and
//! methods.
//!
//! Modules in reading order: `site` (what the statements of a module may name), `params` (parameters), `named`
//! (names that come once), `attributes` (what attributes ask for), `makers` (what makes an instance), `elements`
//! (bodies, rules and methods), `module_statements` (the statements of modules), `definitions` (types), `program`
//! (functions and modules).
//!
//! The definitions are `specs/Programs.antt` (types, functions and modules) and `specs/Modules.antt` (the statements
//! of modules). `specs/Laws.antt` says what is in order of what they give, and `specs/Seen.antt` what the definitions
//! see of the code.
//!
//! What is held while something may still fail is in a `Boxed`: an early end then drops it in one step, which
//! keeps the proof of the function short.
#![tactic(auto)]

mod attributes;
mod definitions;
mod elements;
mod makers;
mod module_statements;
mod named;
mod params;
mod program;
mod site;

pub use attributes::asked;
pub use definitions::define_types;
pub use elements::{level, method_header, stand, wanted};
pub use module_statements::nested;
pub use params::declare_params;
pub use program::{
    Program, announce_function, announce_module, defines_all, function, function_heading, module,
    module_heading, no_methods, param_scopes,
};
pub use site::{Header, ModuleContext, State};
