ghost use Rattle.std.specs.Prelude.{◌≡◌, ◌≢◌, ◌<◌};
ghost use Rattle.bsv_graph.specs.Growing.{IsClosed, IsRowClosed, Extends, GrownAt, Grown};
ghost use Rattle.bsv_graph.specs.Table.{side_of, Adds};

use crate::table::Table;

// Row `a` gains `b`, and what row `b` has.
fn extend_row(reach: &mut Table, a: usize, b: usize)
    requires row { a < side_of reach.old }
    requires other { b < side_of reach.old }
    requires apart { a ≢ b }
    ensures { Adds reach.old reach.new (Extends reach.old a b) }
{
    for y in 0..reach.side() {
        if y == b || reach.get(b, y) {
            reach.mark(a, y);
        }
    }
}

// Row `x` gains what the edge adds to it. Row `to` is left as it is.
fn extend_one(reach: &mut Table, x: usize, from: usize, to: usize)
    requires row { x < side_of reach.old }
    requires from { from < side_of reach.old }
    requires to { to < side_of reach.old }
    ensures side { side_of reach.new ≡ side_of reach.old }
    ensures adds { IsRowClosed reach.old x to
        → Adds reach.old reach.new (GrownAt reach.old x from to) }
{
    if x != to && (x == from || reach.get(x, from)) && !reach.get(x, to) {
        extend_row(reach, x, to);
    }
}

// Each row gains what the edge adds to it. Row `to` gains its own end at most, so it goes last.
pub(crate) fn grow(reach: &mut Table, from: usize, to: usize)
    requires from { from < side_of reach.old }
    requires to { to < side_of reach.old }
    ensures side { side_of reach.new ≡ side_of reach.old }
    ensures adds { IsClosed reach.old → Adds reach.old reach.new (Grown reach.old from to) }
{
    for x in 0..reach.side() {
        extend_one(reach, x, from, to);
    }
    if from == to || reach.get(to, from) {
        reach.mark(to, to);
    }
}
