//! The clock: which rules and asked methods fire, and the state after it, over any scheme; and its laws.
//!
//! The definitions in reading order: `specs/Looks.antt` (what methods look at), `specs/Clocks.antt` (one clock),
//! `specs/Events.antt` (what is told of it), `specs/Runs.antt` (whole runs). What the laws speak of beside:
//! `specs/Grounds.antt` (what belongs together), `specs/Steadiness.antt`, `specs/Settling.antt` (the clock as what each
//! element does), `specs/Feeding.antt` (what the parts are given), `specs/Values.antt` (value methods) and
//! `specs/Shows.antt` (hardware whose words tell a clock).
#![tactic(auto)]

mod laws;

pub use laws::{carried, fed, lawful, one_clock, one_run, settled, steady, value_methods};
