//! How the elements of a design relate, the two orders of a schedule, and which element stops which.
//!
//! Modules in reading order: `relating` (how elements relate, by the methods that they use), `execution_order` (the order in
//! which those that fire in one clock take effect), `urgency_order` (which of two elements that may not fire in one clock has
//! the precedence), `stopping` (what each element stops, and both orders with it as a schedule), `laws` (there is one
//! answer, and what holds of the orders), `picking` (a list of what passes).
//!
//! The definitions in reading order: `specs/relating/Relating.antt` and `specs/relating/Elements.antt` (how elements
//! relate), `specs/execution_order/Orders.antt`, `specs/urgency_order/Orders.antt`, `specs/stopping/Stops.antt`, and
//! `specs/stopping/Firing.antt` (what that comes to where some elements fire). `specs/execution_order/Answers.antt` and
//! `specs/urgency_order/Answers.antt` say which answer tells which fault. `specs/relating/Relations.antt` is what contracts see
//! of relations. The other files of `specs/` say how the code goes about it; no promise rests on them.
#![tactic(auto)]

mod execution_order;
mod laws;
mod picking;
mod relating;
mod stopping;
mod urgency_order;

pub use execution_order::{OrderFault, execution};
pub use laws::{answered, obeyed, one_execution, one_order, one_urgency, ordered};
pub use relating::{Relations, feeds, goes};
pub use stopping::schedule;
pub use urgency_order::{UrgencyFault, urgency};
