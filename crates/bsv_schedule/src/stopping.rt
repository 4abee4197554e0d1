//! Which element stops which.
//!
//! Modules in reading order: `places` (the places of elements in an order), `stops` (what each element stops),
//! `schedules` (both orders, with the stops).

mod places;
mod schedules;
mod stops;

pub use schedules::schedule;
