//! Why the elements of a design are ordered, stopped and asked as they are, in sentences and as a graph. It speaks of
//! designs of flat bodies alone, and knows no source.
//!
//! Modules in reading order: `names` (elements and parts by their names), `meeting` (two calls on one part that decide how
//! two elements relate), `facts` (what is at hand of a design, and the edges of its orders), `walks` (shortest walks along
//! such edges), `phrases` (what is said of calls), `orders` (each edge of the two orders), `stops` (what stops what),
//! `guards` (what elements ask), `schedules` (all that is said of a schedule), `dot` (the schedule as a graph), `pairs`
//! (why an element has two calls too many), `cycles` (why there is no order), `marks` (why the mark of a rule is
//! refused).
#![tactic(auto)]

mod cycles;
mod dot;
mod facts;
mod guards;
mod marks;
mod meeting;
mod names;
mod orders;
mod pairs;
mod phrases;
mod schedules;
mod stops;
mod walks;

pub use cycles::{
    put_behind_rule, put_execution_cycle, put_urgency_cycle, put_value_clash, put_wire_cycle,
};
pub use dot::put_dot;
pub use facts::Facts;
pub use marks::{put_not_enabled, put_not_implicit};
pub use names::position_of;
pub use pairs::put_two_calls;
pub use schedules::put_schedule;
