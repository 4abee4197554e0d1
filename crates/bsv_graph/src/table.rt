ghost use Rattle.std.specs.Prelude.{◌≡◌, ℕ, ◌*◌, ◌^◌, ◌<◌, vec_len, false, IfOk};

use bsv_bits::OutOfMemory;
use std::alloc::Global;

/// A square of marks, row after row.
#[derive(Drop)]
pub struct Table {
    side: usize,
    cells: Vec<bool>,
    ghost square: { vec_len cells ≡ side * side },
    pub ghost small: { side < 2 ^ 32 },
}

impl Table {
    ghost use Rattle.bsv_graph.specs.Table.{side_of, at, Adds};

    /// A table without marks.
    pub fn new(alloc: Global, side: usize) -> Result<Table, OutOfMemory>
        requires { side < 2 ^ 32 }
        ensures side { IfOk result (λ t. side_of t ≡ side) }
        ensures empty { IfOk result (λ t. (a b : ℕ) → at t a b ≡ false) }
    {
        let cells = vec![in alloc; false; side * side]?;
        Ok(Table { side, cells })
    }

    /// How many rows there are, and as many columns.
    pub fn side(&self) -> usize
        ensures { result ≡ side_of self.now }
    {
        self.side
    }

    /// Whether the pair is marked.
    #[tactic(auto, unfolding(crate::specs::Table::at))]
    pub fn get(&self, a: usize, b: usize) -> bool
        requires row { a < side_of self.now }
        requires column { b < side_of self.now }
        ensures { result ≡ at self.now a b }
    {
        self.cells[a * self.side + b]
    }

    /// Marks the pair.
    pub fn mark(&mut self, a: usize, b: usize)
        requires row { a < side_of self.old }
        requires column { b < side_of self.old }
        ensures { Adds self.old self.new (λ x y. (x ≡ a) × (y ≡ b)) }
    {
        let place = a * self.side + b;
        self.cells[place] = true;
    }
}
