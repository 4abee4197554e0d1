//! What the typing of statements promises.

ghost use Rattle.std.specs.Prelude.{◌≡◌, None};
ghost use Rattle.bsv_types.specs.Expressions.{World};
ghost use Rattle.bsv_typing.specs.Laws.{FitsWorld};
ghost use Rattle.bsv_statements.specs.Bodies.{Task};
ghost use Rattle.bsv_statements.specs.Laws.{BodyRight, NeverReturns, ReturnsAlike};

/// What statements are typed as is in order, and returns where they do; where nothing can be returned,
/// nothing is.
pub fn bodies_are_right()
    ensures right { (t : Task) (w : World) → FitsWorld t.env w → BodyRight t w }
    ensures returns { (t : Task) → ReturnsAlike t }
    ensures never { (t : Task) → t.result ≡ None → NeverReturns t }
{}
