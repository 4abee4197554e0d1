ghost use Rattle.std.specs.Prelude.{◌≡◌, ◌++◌, [], ◌∷◌, codes};
ghost use Rattle.std.specs.List.{concat, flat_map};
ghost use Rattle.bsv_io.specs.Adding.{Adds};
ghost use Rattle.bsv_vtext.specs.AtHand as hand;
ghost use Rattle.bsv_vtext.specs.VText as spec;

use crate::names::{Scope, add_atom};
use crate::pieces::{Texts, add_texts};
use crate::tree::{Atom, VRegister};
use bsv_io::{Failed, PutBuffer, Sink, add};

/// A line for each register.
#[derive(Clone, Copy)]
enum Line {
    /// What it begins with.
    Start,
    /// What the reset sets it to, if it does.
    Reset,
}

/// Adds a line in which a register is set to an atom.
fn add_set<S: Sink>(
    buffer: &mut PutBuffer,
    sink: &mut S,
    scope: Scope,
    texts: Texts,
    atom: Atom,
) -> Result<(), Failed>
    ensures { Adds (hand.texts texts.entry
        ++ (spec.atom_text (hand.scope scope.entry) atom ++ codes ";\n")) result
        buffer.old buffer.new (S.writing sink.old) (S.writing sink.new) }
{
    add_texts(buffer, sink, texts)?;
    add_atom(buffer, sink, scope, atom)?;
    add(buffer, sink, b";\n")
}

/// Adds the line of what a register begins with.
fn add_start<S: Sink>(
    buffer: &mut PutBuffer,
    sink: &mut S,
    scope: Scope,
    register: &VRegister,
) -> Result<(), Failed>
    ensures { Adds (spec.start_line register.now) result buffer.old buffer.new
        (S.writing sink.old) (S.writing sink.new) }
{
    let texts = Texts {
        front: b"    ",
        middle: register.name.bytes(),
        back: b" = ",
    };
    add_set(buffer, sink, scope, texts, Atom::Constant(register.start))
}

/// Adds the line of what a register takes over at the edge.
fn add_edge<S: Sink>(
    buffer: &mut PutBuffer,
    sink: &mut S,
    scope: Scope,
    name: &[u8],
    atom: Atom,
) -> Result<(), Failed>
    ensures { Adds (spec.edge_line name.now (spec.atom_text (hand.scope scope.entry) atom)) result
        buffer.old buffer.new (S.writing sink.old) (S.writing sink.new) }
{
    let texts = Texts {
        front: b"      ",
        middle: name,
        back: b" <= ",
    };
    add_set(buffer, sink, scope, texts, atom)
}

/// Adds the line of a register that the reset sets.
fn add_reset<S: Sink>(
    buffer: &mut PutBuffer,
    sink: &mut S,
    scope: Scope,
    register: &VRegister,
) -> Result<(), Failed>
    ensures { Adds (spec.reset_line register.now) result buffer.old buffer.new
        (S.writing sink.old) (S.writing sink.new) }
{
    if register.resets {
        let start = Atom::Constant(register.start);
        add_edge(buffer, sink, scope, register.name.bytes(), start)
    } else {
        add(buffer, sink, b"")
    }
}

/// Adds a line of a register.
fn add_line<S: Sink>(
    buffer: &mut PutBuffer,
    sink: &mut S,
    scope: Scope,
    line: Line,
    register: &VRegister,
) -> Result<(), Failed>
    ensures { Adds (hand.line line register.now) result buffer.old buffer.new
        (S.writing sink.old) (S.writing sink.new) }
{
    match line {
        Line::Start => add_start(buffer, sink, scope, register),
        Line::Reset => add_reset(buffer, sink, scope, register),
    }
}

/// Adds a line of each register.
fn add_lines<S: Sink>(
    buffer: &mut PutBuffer,
    sink: &mut S,
    scope: Scope,
    line: Line,
    registers: &[VRegister],
) -> Result<(), Failed>
    ensures { Adds (flat_map (hand.line line) registers.now) result buffer.old buffer.new
        (S.writing sink.old) (S.writing sink.new) }
{
    let mut left = registers;
    while let Some((register, others)) = left.split_first() {
        add_line(buffer, sink, scope, line, register)?;
        left = others;
    }
    Ok(())
}

/// Adds the line of what a register takes over.
fn add_next<S: Sink>(
    buffer: &mut PutBuffer,
    sink: &mut S,
    scope: Scope,
    register: &VRegister,
    atom: Atom,
) -> Result<(), Failed>
    ensures { Adds (spec.next_line (hand.scope scope.entry) register.now atom) result
        buffer.old buffer.new (S.writing sink.old) (S.writing sink.new) }
{
    add_edge(buffer, sink, scope, register.name.bytes(), atom)
}

/// Adds what each register takes over.
fn add_nexts<S: Sink>(
    buffer: &mut PutBuffer,
    sink: &mut S,
    scope: Scope,
    registers: &[VRegister],
    nexts: &[Atom],
) -> Result<(), Failed>
    ensures { Adds (spec.next_lines (hand.scope scope.entry) registers.now nexts.now) result
        buffer.old buffer.new (S.writing sink.old) (S.writing sink.new) }
{
    let mut left = registers;
    let mut held = nexts;
    while let Some((register, others)) = left.split_first() {
        let Some((atom, more)) = held.split_first() else {
            return Ok(());
        };
        add_next(buffer, sink, scope, register, *atom)?;
        left = others;
        held = more;
    }
    Ok(())
}

/// Adds both blocks.
#[tactic(auto, unfolding(crate::specs::VText::some_blocks))]
fn add_some_blocks<S: Sink>(
    buffer: &mut PutBuffer,
    sink: &mut S,
    scope: Scope,
    registers: &[VRegister],
    nexts: &[Atom],
) -> Result<(), Failed>
    ensures { Adds (spec.some_blocks (hand.scope scope.entry) registers.now nexts.now) result
        buffer.old buffer.new (S.writing sink.old) (S.writing sink.new) }
{
    add(buffer, sink, b"  initial begin\n")?;
    add_lines(buffer, sink, scope, Line::Start, registers)?;
    add(
        buffer,
        sink,
        b"  end\n  always @(posedge CLK) begin\n    if (!RST_N) begin\n",
    )?;
    add_lines(buffer, sink, scope, Line::Reset, registers)?;
    add(buffer, sink, b"    end else begin\n")?;
    add_nexts(buffer, sink, scope, registers, nexts)?;
    add(buffer, sink, b"    end\n  end\n")
}

/// Adds both blocks, where there are registers.
pub(crate) fn add_blocks<S: Sink>(
    buffer: &mut PutBuffer,
    sink: &mut S,
    scope: Scope,
    registers: &[VRegister],
    nexts: &[Atom],
) -> Result<(), Failed>
    ensures { Adds (spec.blocks (hand.scope scope.entry) registers.now nexts.now) result
        buffer.old buffer.new (S.writing sink.old) (S.writing sink.new) }
{
    match registers {
        [] => add(buffer, sink, b""),
        [_, ..] => add_some_blocks(buffer, sink, scope, registers, nexts),
    }
}
