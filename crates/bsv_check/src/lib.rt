//! Checking: a program that is loaded to its typed tree, or the first refusal.
//!
//! Modules in reading order: `fault` (why there is no typed tree), `blame` (who is blamed for a fault), `headings`
//! (all types and headers), `judged_statements`, `judged_modules` and `judged` (places without a fault of their
//! own), `counted` (lists that numbers of 32 bits name), `law` (what the typing promises), `checking` (whole
//! programs).
//!
//! The definition is `specs/Checked.antt` (the first refusal, and the typed program), over `specs/Blame.antt` (which
//! fault of types is told), with `specs/Judged.antt` and `specs/JudgedModules.antt` (which places of a body have one of
//! their own), and `specs/Headers.antt` (all types and headers). `specs/Rightness.antt` says what is promised of a
//! typed program, and `specs/Seen.antt` what the definitions see of the code.
//!
//! What is held while something may still fail is in a `Boxed`: an early end then drops it in one step, which
//! keeps the proof of the function short.
#![tactic(auto)]

mod blame;
mod checking;
mod counted;
mod fault;
mod headings;
mod judged;
mod judged_modules;
mod judged_statements;
mod law;

pub use checking::check;
pub use fault::CheckFault;
pub use law::programs_are_right;
