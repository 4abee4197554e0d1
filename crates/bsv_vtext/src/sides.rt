ghost use Rattle.std.specs.Prelude.{◌≡◌, ◌++◌, [], ◌∷◌, codes, decimal};
ghost use Rattle.std.specs.List.{concat, flat_map};
ghost use Rattle.bsv_io.specs.Adding.{Adds};
ghost use Rattle.bsv_vtext.specs.AtHand as hand;
ghost use Rattle.bsv_vtext.specs.VText as spec;

use crate::names::{Scope, add_atom, add_target};
use crate::pieces::{Texts, add_all};
use crate::tree::{Assign, Atom, Side, VOperator};
use bsv_io::{Failed, PutBuffer, Sink, add};
use itoa::Buffer;

/// An operator between its operands.
fn operator_text(operator: VOperator) -> &'static [u8]
    ensures { result.now ≡ spec.operator_text operator }
{
    match operator {
        VOperator::Add => b" + ",
        VOperator::Sub => b" - ",
        VOperator::Mul => b" * ",
        VOperator::And => b" & ",
        VOperator::Or => b" | ",
        VOperator::Xor => b" ^ ",
        VOperator::Same => b" == ",
        VOperator::Differs => b" != ",
        VOperator::Less => b" < ",
        VOperator::UpTo => b" <= ",
        VOperator::Shl => b" << ",
        VOperator::Shr => b" >> ",
    }
}

/// Adds a text and an atom.
fn add_after<S: Sink>(
    buffer: &mut PutBuffer,
    sink: &mut S,
    scope: Scope,
    front: &[u8],
    atom: Atom,
) -> Result<(), Failed>
    ensures { Adds (front.now ++ spec.atom_text (hand.scope scope.entry) atom) result
        buffer.old buffer.new (S.writing sink.old) (S.writing sink.new) }
{
    add(buffer, sink, front)?;
    add_atom(buffer, sink, scope, atom)
}

/// Adds two atoms, with texts before, between and after them.
fn add_two<S: Sink>(
    buffer: &mut PutBuffer,
    sink: &mut S,
    scope: Scope,
    texts: Texts,
    first: Atom,
    second: Atom,
) -> Result<(), Failed>
    ensures { Adds (hand.two (hand.scope scope.entry) texts.entry first second) result
        buffer.old buffer.new (S.writing sink.old) (S.writing sink.new) }
{
    add(buffer, sink, texts.front)?;
    add_atom(buffer, sink, scope, first)?;
    add(buffer, sink, texts.middle)?;
    add_atom(buffer, sink, scope, second)?;
    add(buffer, sink, texts.back)
}

/// Adds an operator with its operands.
fn add_operation<S: Sink>(
    buffer: &mut PutBuffer,
    sink: &mut S,
    scope: Scope,
    operator: VOperator,
    first: Atom,
    second: Atom,
) -> Result<(), Failed>
    ensures { Adds (spec.side_text (hand.scope scope.entry) (Side.Two operator first second))
        result buffer.old buffer.new (S.writing sink.old) (S.writing sink.new) }
{
    let texts = Texts {
        front: b"",
        middle: operator_text(operator),
        back: b"",
    };
    add_two(buffer, sink, scope, texts, first, second)
}

/// Adds a comparison of signed numbers.
fn add_signed<S: Sink>(
    buffer: &mut PutBuffer,
    sink: &mut S,
    scope: Scope,
    comparison: &[u8],
    first: Atom,
    second: Atom,
) -> Result<(), Failed>
    ensures { Adds (hand.signed (hand.scope scope.entry) comparison.now first second) result
        buffer.old buffer.new (S.writing sink.old) (S.writing sink.new) }
{
    let texts = Texts {
        front: b"$signed(",
        middle: comparison,
        back: b")",
    };
    add_two(buffer, sink, scope, texts, first, second)
}

/// Adds a signed shift.
fn add_shift<S: Sink>(
    buffer: &mut PutBuffer,
    sink: &mut S,
    scope: Scope,
    first: Atom,
    second: Atom,
) -> Result<(), Failed>
    ensures { Adds (spec.side_text (hand.scope scope.entry) (Side.ShiftSigned first second))
        result buffer.old buffer.new (S.writing sink.old) (S.writing sink.new) }
{
    let texts = Texts {
        front: b"$signed(",
        middle: b") >>> ",
        back: b"",
    };
    add_two(buffer, sink, scope, texts, first, second)
}

/// Adds a choice.
fn add_pick<S: Sink>(
    buffer: &mut PutBuffer,
    sink: &mut S,
    scope: Scope,
    test: Atom,
    first: Atom,
    second: Atom,
) -> Result<(), Failed>
    ensures { Adds (spec.side_text (hand.scope scope.entry) (Side.Pick test first second))
        result buffer.old buffer.new (S.writing sink.old) (S.writing sink.new) }
{
    let texts = Texts {
        front: b" ? ",
        middle: b" : ",
        back: b"",
    };
    add_atom(buffer, sink, scope, test)?;
    add_two(buffer, sink, scope, texts, first, second)
}

/// Adds atoms, each after a comma.
fn add_others<S: Sink>(
    buffer: &mut PutBuffer,
    sink: &mut S,
    scope: Scope,
    parts: &[Atom],
) -> Result<(), Failed>
    ensures { Adds (flat_map (spec.joined_atom (hand.scope scope.entry)) parts.now) result
        buffer.old buffer.new (S.writing sink.old) (S.writing sink.new) }
{
    let mut left = parts;
    while let Some((part, others)) = left.split_first() {
        add_after(buffer, sink, scope, b", ", *part)?;
        left = others;
    }
    Ok(())
}

/// Adds an atom, and others after commas.
fn add_some<S: Sink>(
    buffer: &mut PutBuffer,
    sink: &mut S,
    scope: Scope,
    first: Atom,
    others: &[Atom],
) -> Result<(), Failed>
    ensures { Adds (spec.joined_atoms (hand.scope scope.entry) (first ∷ others.now)) result
        buffer.old buffer.new (S.writing sink.old) (S.writing sink.new) }
{
    add_atom(buffer, sink, scope, first)?;
    add_others(buffer, sink, scope, others)
}

/// Adds the atoms of a join.
fn add_joined<S: Sink>(
    buffer: &mut PutBuffer,
    sink: &mut S,
    scope: Scope,
    parts: &[Atom],
) -> Result<(), Failed>
    ensures { Adds (spec.joined_atoms (hand.scope scope.entry) parts.now) result
        buffer.old buffer.new (S.writing sink.old) (S.writing sink.new) }
{
    match parts.split_first() {
        Some((first, others)) => add_some(buffer, sink, scope, *first, others),
        None => add(buffer, sink, b""),
    }
}

/// Adds a join.
fn add_join<S: Sink>(
    buffer: &mut PutBuffer,
    sink: &mut S,
    scope: Scope,
    parts: &[Atom],
) -> Result<(), Failed>
    ensures { Adds (spec.side_text (hand.scope scope.entry) (Side.Join parts.now)) result
        buffer.old buffer.new (S.writing sink.old) (S.writing sink.new) }
{
    add(buffer, sink, b"{")?;
    add_joined(buffer, sink, scope, parts)?;
    add(buffer, sink, b"}")
}

/// Adds the range of a slice.
fn add_range<S: Sink>(
    buffer: &mut PutBuffer,
    sink: &mut S,
    high: u32,
    low: u32,
) -> Result<(), Failed>
    ensures { Adds (concat (codes "[" ∷ decimal high ∷ codes ":" ∷ decimal low ∷ codes "]" ∷ []))
        result buffer.old buffer.new (S.writing sink.old) (S.writing sink.new) }
{
    let mut highs = Buffer::new();
    let mut lows = Buffer::new();
    let from = highs.format(high).as_bytes();
    let to = lows.format(low).as_bytes();
    add_all(buffer, sink, &[b"[", from, b":", to, b"]"])
}

/// Adds a slice.
fn add_slice<S: Sink>(
    buffer: &mut PutBuffer,
    sink: &mut S,
    scope: Scope,
    atom: Atom,
    high: u32,
    low: u32,
) -> Result<(), Failed>
    ensures { Adds (spec.side_text (hand.scope scope.entry) (Side.Slice atom high low)) result
        buffer.old buffer.new (S.writing sink.old) (S.writing sink.new) }
{
    add_atom(buffer, sink, scope, atom)?;
    add_range(buffer, sink, high, low)
}

/// Adds the right side of an assignment.
fn add_side<S: Sink>(
    buffer: &mut PutBuffer,
    sink: &mut S,
    scope: Scope,
    side: &Side,
) -> Result<(), Failed>
    ensures { Adds (spec.side_text (hand.scope scope.entry) side.now) result
        buffer.old buffer.new (S.writing sink.old) (S.writing sink.new) }
{
    match side {
        Side::Is(a) => add_atom(buffer, sink, scope, *a),
        Side::Not(a) => add_after(buffer, sink, scope, b"~", *a),
        Side::Two(operator, a, b) => add_operation(buffer, sink, scope, *operator, *a, *b),
        Side::LessSigned(a, b) => add_signed(buffer, sink, scope, b") < $signed(", *a, *b),
        Side::UpToSigned(a, b) => add_signed(buffer, sink, scope, b") <= $signed(", *a, *b),
        Side::ShiftSigned(a, b) => add_shift(buffer, sink, scope, *a, *b),
        Side::Pick(test, a, b) => add_pick(buffer, sink, scope, *test, *a, *b),
        Side::Join(parts) => add_join(buffer, sink, scope, parts.as_slice()),
        Side::Slice(a, high, low) => add_slice(buffer, sink, scope, *a, *high, *low),
    }
}

/// Adds an assignment.
fn add_assign<S: Sink>(
    buffer: &mut PutBuffer,
    sink: &mut S,
    scope: Scope,
    assign: &Assign,
) -> Result<(), Failed>
    ensures { Adds (spec.assign_line (hand.scope scope.entry) assign.now) result
        buffer.old buffer.new (S.writing sink.old) (S.writing sink.new) }
{
    add(buffer, sink, b"  assign ")?;
    add_target(buffer, sink, scope, assign.target)?;
    add(buffer, sink, b" = ")?;
    add_side(buffer, sink, scope, &assign.side)?;
    add(buffer, sink, b";\n")
}

/// Adds the assignments.
pub(crate) fn add_assigns<S: Sink>(
    buffer: &mut PutBuffer,
    sink: &mut S,
    scope: Scope,
    assigns: &[Assign],
) -> Result<(), Failed>
    ensures { Adds (flat_map (spec.assign_line (hand.scope scope.entry)) assigns.now) result
        buffer.old buffer.new (S.writing sink.old) (S.writing sink.new) }
{
    let mut left = assigns;
    while let Some((assign, others)) = left.split_first() {
        add_assign(buffer, sink, scope, assign)?;
        left = others;
    }
    Ok(())
}
