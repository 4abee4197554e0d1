//! The execution order: the order in which the elements that fire in one clock take effect.
//!
//! Modules in reading order: `fault` (why there is no order), `edges` (soft edges), `values` (value methods, and which
//! of them clashes), `order` (hard edges, and the order).

mod edges;
mod fault;
mod order;
mod values;

pub use fault::OrderFault;
pub use order::execution;
