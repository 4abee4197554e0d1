ghost use Rattle.std.specs.Prelude.{◌≡◌, ◌++◌, ◌∷◌, [], IfOk, IfSome, OnOk, map};
ghost use Rattle.bsv_clock.specs.Shows as carrying;
ghost use Rattle.bsv_design.specs.scheme.Schemes.{outline};
ghost use Rattle.bsv_ports.specs.Starts as spec;
ghost use Rattle.bsv_graph.specs.Edges.{numbers_below};
ghost use Rattle.bsv_net.specs.declared.node.NetNode.TheVariants as net;

use bsv_bits::{OutOfMemory, Word};
use bsv_design::{Element, NamedPart, Port};
use bsv_net::NetNode;
use bsv_prim::{Primitive, RegisterInfo};
use sqlite_items::Items;
use std::alloc::Global;

/// Those of a method: the widths of its arguments, and one bit.
fn push_inputs(widths: &mut Items<u32>, ports: &[Port]) -> Result<(), OutOfMemory>
    ensures { OnOk result
        (widths.new ≡ widths.old ++ (map (λ p. p.width) ports.now ++ 1 ∷ [])) }
{
    for port in ports {
        widths.push(port.width)?;
    }
    widths.push(1)?;
    Ok(())
}

/// The widths of the inputs, of each method its own. After the first rule there are no methods.
pub fn inputs_of(alloc: Global, elements: &[Element]) -> Result<Items<u32>, OutOfMemory>
    ensures { IfOk result (λ widths. widths
        ≡ carrying.input_widths_of (map outline elements.now)) }
{
    let mut widths = Items::new(alloc);
    let mut rest = elements;
    while let Some((element, after)) = rest.split_first() {
        if element.role.is_rule() {
            return Ok(widths);
        }
        push_inputs(&mut widths, element.arguments.as_slice())?;
        rest = after;
    }
    Ok(widths)
}

/// The registers of a part.
fn push_registers(registers: &mut Items<RegisterInfo>, part: &NamedPart) -> Result<(), OutOfMemory>
    ensures { OnOk result (map carrying.cell registers.new
        ≡ map carrying.cell registers.old ++ carrying.cells_in part.now.kind) }
{
    for number in 0..part.kind.registers() {
        registers.push(part.kind.register(number))?;
    }
    Ok(())
}

/// The registers of all parts, in building order.
#[tactic(auto, unfolding(bsv_clock::specs::Shows::cells_of))]
pub fn registers_of(alloc: Global, parts: &[NamedPart]) -> Result<Items<RegisterInfo>, OutOfMemory>
    ensures { IfOk result (λ registers. map carrying.cell registers
        ≡ carrying.cells_of (map (λ p. p.kind) parts.now)) }
{
    let mut registers = Items::new(alloc);
    let mut rest = parts;
    while let Some((part, after)) = rest.split_first() {
        push_registers(&mut registers, part)?;
        rest = after;
    }
    Ok(registers)
}

/// How many inputs an element has.
fn input_count(element: &Element) -> Option<u32>
    ensures { IfSome result (λ count. count ≡ spec.input_count element.now) }
{
    if element.role.is_rule() {
        return Some(0);
    }
    match u32::try_from(element.arguments.len()) {
        Ok(count) => count.checked_add(1),
        Err(_) => None,
    }
}

/// Of each element the node of its first input.
#[tactic(auto, unfolding(crate::specs::Starts::input_starts))]
pub fn input_starts(alloc: Global, elements: &[Element]) -> Result<Vec<u32>, OutOfMemory>
    ensures { IfOk result (λ starts. starts.items ≡ spec.input_starts 0 elements.now) }
{
    let mut starts = Vec::new(alloc);
    let mut next = 0u32;
    let mut rest = elements;
    while let Some((element, after)) = rest.split_first() {
        starts.push(next)?;
        let Some(count) = input_count(element) else {
            return Err(OutOfMemory);
        };
        let Some(behind) = next.checked_add(count) else {
            return Err(OutOfMemory);
        };
        next = behind;
        rest = after;
    }
    Ok(starts)
}

/// Of each part the node of its first register, after so many inputs.
#[tactic(auto, unfolding(crate::specs::Starts::register_starts))]
pub fn register_starts(
    alloc: Global,
    inputs: u32,
    parts: &[NamedPart],
) -> Result<Vec<u32>, OutOfMemory>
    ensures { IfOk result (λ starts. starts.items
        ≡ spec.register_starts inputs (map (λ p. p.kind) parts.now)) }
{
    let mut starts = Vec::new(alloc);
    let mut next = inputs;
    let mut rest = parts;
    while let Some((part, after)) = rest.split_first() {
        starts.push(next)?;
        let Some(behind) = next.checked_add(part.kind.registers()) else {
            return Err(OutOfMemory);
        };
        next = behind;
        rest = after;
    }
    Ok(starts)
}

/// So many inputs as nodes.
fn push_input_nodes(nodes: &mut Items<NetNode>, count: u32) -> Result<(), OutOfMemory>
    ensures { OnOk result (nodes.new ≡ nodes.old ++ map net.Input (numbers_below count)) }
{
    for number in 0..count {
        nodes.push(NetNode::Input(number))?;
    }
    Ok(())
}

/// So many registers as nodes.
fn push_register_nodes(nodes: &mut Items<NetNode>, count: u32) -> Result<(), OutOfMemory>
    ensures { OnOk result (nodes.new ≡ nodes.old ++ map net.Register (numbers_below count)) }
{
    for number in 0..count {
        nodes.push(NetNode::Register(number))?;
    }
    Ok(())
}

/// The inputs and the registers as nodes, and after them a bit that is 0 and one that is 1.
pub fn first_nodes(
    alloc: Global,
    inputs: u32,
    registers: u32,
) -> Result<Items<NetNode>, OutOfMemory>
    ensures { IfOk result (λ nodes. nodes ≡ spec.first_nodes inputs registers) }
{
    let mut nodes = Items::new(alloc);
    push_input_nodes(&mut nodes, inputs)?;
    push_register_nodes(&mut nodes, registers)?;
    nodes.push(NetNode::Constant(Word::bit(false)))?;
    nodes.push(NetNode::Constant(Word::bit(true)))?;
    Ok(nodes)
}
