//! The typing of statements: of rules, methods and functions.
//!
//! Modules in reading order: `fail` (why there is no typed statement), `bodies` (what is in
//! statements), `simple` (statements that hold no others, and what comes before those that
//! do), `compound` (statements), `endings` (which bodies return), `law` (what the typing promises).
//!
//! The definitions are `specs/Bodies.antt` (how statements are typed), `specs/Returns.antt` (which
//! bodies return) and `specs/Laws.antt` (what the typing promises). `specs/SeenBodies.antt` and
//! `specs/ReturnsSeen.antt` say what they see of the code.
//!
//! What is held while something may still fail is in a `Boxed`: an early end then drops it in
//! one step, which keeps the proof of the function short.
#![tactic(auto)]

mod bodies;
mod compound;
mod endings;
mod fail;
mod law;
mod simple;

pub use bodies::{
    MethodCall, Task, assignable, at, call_at, called, checked, declare, declared_type,
    instance_at, of_type, one_of_many,
};
pub use compound::{statement, statements};
pub use endings::returns;
pub use fail::BodyFail;
pub use law::bodies_are_right;
pub use simple::{Opening, asked, head, open_arm};
