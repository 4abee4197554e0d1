ghost use Rattle.std.specs.Prelude.{◌≡◌, ◌++◌, map, IfOk, OnOk};
ghost use Rattle.bsv_net.specs.AtHand.{net_data};
ghost use Rattle.bsv_vgen.specs.AtHand as hand;
ghost use Rattle.bsv_vgen.specs.Lines.{known_at};
ghost use Rattle.bsv_vgen.specs.Modules as spec;

use crate::known::{Known, known_at, told_at};
use crate::names::fire_name;
use crate::written::{Written, add_wire};
use bsv_bits::{Name, OutOfMemory};
use bsv_design::Element;
use bsv_net::Net;
use bsv_prim::RegisterInfo;
use bsv_vtext::{Assign, Atom, Side, Target, VRegister, VWire};
use sqlite_items::Items;
use std::alloc::Global;

/// The wire that tells that an element fires, which has this word; a method that gives a value alone has
/// none.
fn add_fire(
    alloc: Global,
    written: &mut Written,
    element: &Element,
    word: Atom,
) -> Result<(), OutOfMemory>
    ensures { OnOk result (hand.written written.new
        ≡ spec.with_fire element.now word (hand.written written.old)) }
{
    if element.role.is_value() {
        return Ok(());
    }
    let name = fire_name(alloc, element.name.bytes())?;
    add_wire(written, VWire { name, width: 1 }, Side::Is(word))?;
    Ok(())
}

/// The wires that tell what fires.
#[tactic(auto, unfolding(crate::specs::Modules::with_fires))]
pub(crate) fn add_fires(
    alloc: Global,
    written: &mut Written,
    known: &[Known],
    net: &Net,
    elements: &[Element],
) -> Result<(), OutOfMemory>
    ensures { OnOk result (hand.written written.new
        ≡ spec.with_fires known.now net.now.fires 0 elements.now (hand.written written.old)) }
{
    let mut number = 0u32;
    let mut rest = elements;
    while let Some((element, after)) = rest.split_first() {
        let word = told_at(known, net.fires.as_slice(), number).atom;
        add_fire(alloc, written, element, word)?;
        let Some(next) = number.checked_add(1) else {
            return Err(OutOfMemory);
        };
        number = next;
        rest = after;
    }
    Ok(())
}

/// What a method gives.
fn add_result(
    assigns: &mut Items<Assign>,
    known: &[Known],
    net: &Net,
    place: u32,
    method: &Element,
) -> Result<(), OutOfMemory>
    ensures { OnOk result (assigns.new ≡ assigns.old
        ++ spec.result_assign known.now (net_data net.now) place method.now) }
{
    if !method.role.gives_value() {
        return Ok(());
    }
    let target = Target::Result(place);
    let side = Side::Is(told_at(known, net.results.as_slice(), place).atom);
    assigns.push(Assign { target, side })?;
    Ok(())
}

/// Whether a method is ready, and what it gives.
fn add_output(
    assigns: &mut Items<Assign>,
    known: &[Known],
    net: &Net,
    place: u32,
    method: &Element,
) -> Result<(), OutOfMemory>
    ensures { OnOk result (assigns.new ≡ assigns.old
        ++ spec.method_assigns known.now (net_data net.now) place method.now) }
{
    let target = Target::Ready(place);
    let side = Side::Is(told_at(known, net.readies.as_slice(), place).atom);
    assigns.push(Assign { target, side })?;
    add_result(assigns, known, net, place, method)
}

/// Whether these methods are ready, and what they give.
pub(crate) fn add_outputs(
    assigns: &mut Items<Assign>,
    known: &[Known],
    net: &Net,
    methods: &[Element],
) -> Result<(), OutOfMemory>
    ensures { OnOk result (assigns.new ≡ assigns.old
        ++ spec.outputs_from known.now (net_data net.now) 0 methods.now) }
{
    let mut number = 0u32;
    let mut rest = methods;
    while let Some((method, after)) = rest.split_first() {
        add_output(assigns, known, net, number, method)?;
        let Some(next) = number.checked_add(1) else {
            return Err(OutOfMemory);
        };
        number = next;
        rest = after;
    }
    Ok(())
}

/// The registers by these names.
pub(crate) fn registers_of(
    alloc: Global,
    names: &[Name],
    registers: &[RegisterInfo],
) -> Result<Items<VRegister>, OutOfMemory>
    ensures { IfOk result (λ made. made ≡ spec.registers_of names.now registers.now) }
{
    let mut made = Items::new(alloc);
    let mut rest = names;
    let mut left = registers;
    while let Some((name, after)) = rest.split_first() {
        let Some((register, behind)) = left.split_first() else {
            return Ok(made);
        };
        let name = Name::new(alloc, name.bytes())?;
        made.push(VRegister {
            name,
            start: register.start,
            resets: register.resets,
        })?;
        rest = after;
        left = behind;
    }
    Ok(made)
}

/// What the registers take over.
pub(crate) fn nexts_of(
    alloc: Global,
    known: &[Known],
    nodes: &[u32],
) -> Result<Items<Atom>, OutOfMemory>
    ensures { IfOk result (λ nexts. nexts
        ≡ map (λ k. (known_at known.now k).atom) nodes.now) }
{
    let mut nexts = Items::new(alloc);
    for node in nodes {
        nexts.push(known_at(known, *node).atom)?;
    }
    Ok(nexts)
}
