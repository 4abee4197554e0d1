//! Graphs on numbers: which edges close a cycle, and the least order that respects them.
//!
//! Modules in reading order: `edge` (an edge), `table` (a square of marks), `graph` (a graph
//! to which edges are added, its cycles, and its least order), `reach` (what an edge adds to where walks
//! lead), `least` (the least number that is ready).
//!
//! The definitions in reading order: `specs/Walks.antt` (walks, cycles, and the edges that close one),
//! `specs/Orders.antt` (lists of numbers as orders, and the least one), `specs/Edges.antt` (edges by a test),
//! `specs/Table.antt`, `specs/Reaching.antt` and `specs/Graphs.antt` (what contracts see of a table and of a graph).
//! `specs/Growing.antt` and `specs/Ready.antt` say how the code goes about it; no promise rests on them.
#![tactic(auto)]

mod edge;
mod graph;
mod least;
mod reach;
mod table;

pub use edge::Edge;
pub use graph::Graph;
pub use table::Table;
