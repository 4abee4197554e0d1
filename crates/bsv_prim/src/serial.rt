//! What holds of every kind of primitive by its laws alone.

ghost use Rattle.bsv_prim.specs.Elements.{ElementInTurn, FitInTurn, JoinInTurn};
ghost use Rattle.bsv_prim.specs.Parallel.{AnswerInTurn, RunInTurn, SeeEarlier, SeenRunInTurn, StepInTurn};

use crate::primitive::Primitive;

/// A law of every kind: calls that fire side by side on one part can run one at a time.
pub fn parallel_is_serial<K: Primitive>()
    // Each call is ready at its turn.
    ensures in_turn { (kind : K) → RunInTurn (K.table kind) }
    // Each value call answers at its turn what it answers side by side.
    ensures answers { (kind : K) → AnswerInTurn (K.table kind) }
    // A call sees none but earlier ones.
    ensures earlier { (kind : K) → SeeEarlier (K.table kind) }
    // The calls that a method sees can run so too.
    ensures seen { (kind : K) → SeenRunInTurn (K.table kind) }
    // One step of the registers does what the calls do one at a time.
    ensures step { (kind : K) → StepInTurn (K.table kind) }
{}

/// A law of every kind: the calls of one element can run one at a time by their ranks, and element
/// after element.
pub fn elements_are_serial<K: Primitive>()
    // Each call of one element is ready at its turn, where all are ready before the first.
    ensures element { (kind : K) → ElementInTurn (K.table kind) }
    // A list that goes before another runs before it.
    ensures joined { (kind : K) → JoinInTurn (K.table kind) }
    // The part fits to the end.
    ensures fits { (kind : K) → FitInTurn (K.table kind) }
{}
