ghost use Rattle.std.specs.Prelude.{◌≡◌, ◌++◌, ◌∷◌, [], map, IfOk, OnOk};
ghost use Rattle.bsv_design.specs.scheme.States as states;
ghost use Rattle.bsv_net.specs.AtHand.{net_data};
ghost use Rattle.bsv_vgen.specs.Interfaces.{argument_of};
ghost use Rattle.bsv_vgen.specs.Modules as spec;

use crate::known::{Known, told_at};
use bsv_bits::{Name, OutOfMemory, Word};
use bsv_design::{Element, Port, Role};
use bsv_net::Net;
use bsv_vtext::{Atom, VMethod, VWire};
use sqlite_items::Items;
use std::alloc::Global;

/// The elements before the first rule: the methods of the top.
pub(crate) fn methods_in(elements: &[Element]) -> &[Element]
    ensures { result.now ≡ states.methods_in elements.now }
{
    let mut count = 0;
    while count < elements.len() && !elements[count].role.is_rule() {
        count += 1;
    }
    &elements[..count]
}

/// Adds what is known of the arguments of a method.
fn add_arguments(known: &mut Items<Known>, method: u32, ports: &[Port]) -> Result<(), OutOfMemory>
    ensures { OnOk result (known.new ≡ known.old
        ++ spec.argument_inputs method 0 ports.now) }
{
    let mut number = 0u32;
    let mut rest = ports;
    while let Some((port, after)) = rest.split_first() {
        let atom = Atom::Argument(method, number);
        let width = port.width;
        known.push(Known { atom, width })?;
        let Some(next) = number.checked_add(1) else {
            return Err(OutOfMemory);
        };
        number = next;
        rest = after;
    }
    Ok(())
}

/// The atom of the input that tells that a method is asked.
fn asked_input(method: u32, role: Role) -> Atom
    ensures { result ≡ (spec.asked_input method role).atom }
{
    if role.is_value() {
        return Atom::Constant(Word::bit(true));
    }
    Atom::Enable(method)
}

/// Adds what is known of the inputs of a method.
fn add_method(known: &mut Items<Known>, place: u32, method: &Element) -> Result<(), OutOfMemory>
    ensures { OnOk result (known.new ≡ known.old ++ spec.method_inputs place method.now) }
{
    add_arguments(known, place, method.arguments.as_slice())?;
    let atom = asked_input(place, method.role);
    known.push(Known { atom, width: 1 })?;
    Ok(())
}

/// What is known of the inputs of the net of a design with these methods.
pub(crate) fn inputs(alloc: Global, methods: &[Element]) -> Result<Items<Known>, OutOfMemory>
    ensures { IfOk result (λ known. known ≡ spec.inputs_from 0 methods.now) }
{
    let mut known = Items::new(alloc);
    let mut number = 0u32;
    let mut rest = methods;
    while let Some((method, after)) = rest.split_first() {
        add_method(&mut known, number, method)?;
        let Some(next) = number.checked_add(1) else {
            return Err(OutOfMemory);
        };
        number = next;
        rest = after;
    }
    Ok(known)
}

/// The arguments of a method, as its ports.
fn arguments_of(alloc: Global, ports: &[Port]) -> Result<Items<VWire>, OutOfMemory>
    ensures { IfOk result (λ args. args ≡ map argument_of ports.now) }
{
    let mut args = Items::new(alloc);
    let mut rest = ports;
    while let Some((port, after)) = rest.split_first() {
        let name = Name::new(alloc, port.name.bytes())?;
        let width = port.width;
        args.push(VWire { name, width })?;
        rest = after;
    }
    Ok(args)
}

/// The width of what a method gives.
fn result_width(known: &[Known], net: &Net, place: u32, method: &Element) -> Option<u32>
    ensures { result ≡ spec.result_width known.now (net_data net.now) place method.now }
{
    if !method.role.gives_value() {
        return None;
    }
    Some(told_at(known, net.results.as_slice(), place).width)
}

/// The ports of a method.
fn method_of(
    alloc: Global,
    known: &[Known],
    net: &Net,
    place: u32,
    method: &Element,
) -> Result<VMethod, OutOfMemory>
    ensures { IfOk result (λ made. made
        ≡ spec.method_of known.now (net_data net.now) place method.now) }
{
    let name = Name::new(alloc, method.name.bytes())?;
    let args = arguments_of(alloc, method.arguments.as_slice())?;
    Ok(VMethod {
        name,
        args,
        action: !method.role.is_value(),
        result: result_width(known, net, place, method),
    })
}

/// The ports of these methods.
pub(crate) fn methods_of(
    alloc: Global,
    known: &[Known],
    net: &Net,
    methods: &[Element],
) -> Result<Items<VMethod>, OutOfMemory>
    ensures { IfOk result (λ made. made
        ≡ spec.methods_from known.now (net_data net.now) 0 methods.now) }
{
    let mut made = Items::new(alloc);
    let mut number = 0u32;
    let mut rest = methods;
    while let Some((method, after)) = rest.split_first() {
        let ports = method_of(alloc, known, net, number, method)?;
        made.push(ports)?;
        let Some(next) = number.checked_add(1) else {
            return Err(OutOfMemory);
        };
        number = next;
        rest = after;
    }
    Ok(made)
}
