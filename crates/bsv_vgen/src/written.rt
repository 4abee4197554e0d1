ghost use Rattle.std.specs.Prelude.{◌≡◌, length, IfOk, OnOk};
ghost use Rattle.bsv_vgen.specs.AtHand as hand;
ghost use Rattle.bsv_vgen.specs.Lines as spec;

use crate::known::Known;
use crate::names::numbered_name;
use bsv_bits::OutOfMemory;
use bsv_vtext::{Assign, Atom, Side, Target, VWire};
use sqlite_items::Items;
use std::alloc::Global;

/// Wires, and the assignments of each.
#[derive(Drop)]
pub(crate) struct Written {
    pub wires: Items<VWire>,
    pub assigns: Items<Assign>,
}

/// One more wire with its assignment; its place.
pub(crate) fn add_wire(written: &mut Written, wire: VWire, side: Side) -> Result<u32, OutOfMemory>
    ensures written { OnOk result (hand.written written.new
        ≡ spec.with_wire (hand.written written.old) wire side) }
    ensures place { IfOk result (λ place. place ≡ length written.old.wires) }
{
    let Ok(place) = u32::try_from(written.wires.len()) else {
        return Err(OutOfMemory);
    };
    written.wires.push(wire)?;
    let target = Target::Wire(place);
    written.assigns.push(Assign { target, side })?;
    Ok(place)
}

/// One more line: a wire with a number, and its assignment.
pub(crate) fn add_line(
    alloc: Global,
    written: &mut Written,
    width: u32,
    side: Side,
) -> Result<Known, OutOfMemory>
    ensures written { OnOk result (hand.written written.new
        ≡ (spec.line (hand.written written.old) width side).written) }
    ensures known { IfOk result (λ known. known
        ≡ (spec.line (hand.written written.old) width side).known) }
{
    let Ok(number) = u32::try_from(written.wires.len()) else {
        return Err(OutOfMemory);
    };
    let name = numbered_name(alloc, number)?;
    let place = add_wire(written, VWire { name, width }, side)?;
    Ok(Known {
        atom: Atom::Wire(place),
        width,
    })
}
