//! The urgency order: which of two elements that may not fire in one clock has the precedence.
//!
//! Modules in reading order: `fault` (why there is no order), `behind` (a method that comes after a rule), `order` (the
//! order).

mod behind;
mod fault;
mod order;

pub use fault::UrgencyFault;
pub use order::urgency;
