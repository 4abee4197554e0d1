ghost use Rattle.std.specs.Prelude.{◌≡◌, ◌+◌, ◌++◌, ◌<◌, ◌^◌, map, length, IfOk, OnOk, IsTrue};
ghost use Rattle.std.specs.List.{list_all};
ghost use Rattle.bsv_net.specs.Nets as spec;

use crate::net_data::NetData;
use crate::node::NetNode;
use bsv_bits::{Name, OutOfMemory};
use bsv_design::{Node, Port};
use bsv_prim::RegisterInfo;
use bsv_widths::widths;
use sqlite_items::Items;
use std::alloc::Global;

/// The node as one of a flat body, after so many arguments that are inputs.
fn as_node(inputs: u32, registers: usize, node: NetNode) -> Node
    requires few { inputs + registers < 2 ^ 32 }
    requires within { IsTrue (spec.is_within inputs registers node) }
    ensures { result ≡ spec.as_node inputs node }
{
    match node {
        NetNode::Input(number) => Node::Argument(number),
        NetNode::Register(number) => Node::Argument(inputs + number),
        NetNode::Constant(word) => Node::Constant(word),
        NetNode::Not(a) => Node::Not(a),
        NetNode::Two(operator, a, b) => Node::Two(operator, a, b),
        NetNode::Pick(test, a, b) => Node::Pick(test, a, b),
        NetNode::Slice(a, high, low) => Node::Slice(a, high, low),
        NetNode::Join(a, b) => Node::Join(a, b),
        NetNode::Extend(a, width) => Node::Extend(a, width),
        NetNode::SignExtend(a, width) => Node::SignExtend(a, width),
    }
}

/// The nodes as those of a flat body.
fn as_nodes(
    alloc: Global,
    inputs: u32,
    registers: usize,
    nodes: &[NetNode],
) -> Result<Items<Node>, OutOfMemory>
    requires few { inputs + registers < 2 ^ 32 }
    requires within { IsTrue (list_all (spec.is_within inputs registers) nodes.now) }
    ensures { IfOk result (λ found. found ≡ spec.as_nodes inputs nodes.now) }
{
    let mut found = Items::new(alloc);
    let mut rest = nodes;
    while let Some((node, after)) = rest.split_first() {
        found.push(as_node(inputs, registers, *node))?;
        rest = after;
    }
    Ok(found)
}

/// An argument of so many bits.
fn port(alloc: Global, width: u32) -> Result<Port, OutOfMemory>
    ensures { IfOk result (λ found. found ≡ spec.port width) }
{
    let name = Name::new(alloc, &[])?;
    Ok(Port { name, width })
}

/// Adds the inputs as arguments.
fn add_inputs(alloc: Global, inputs: &[u32], found: &mut Items<Port>) -> Result<(), OutOfMemory>
    ensures { OnOk result (found.new ≡ found.old ++ map spec.port inputs.now) }
{
    for width in inputs {
        found.push(port(alloc, *width)?)?;
    }
    Ok(())
}

/// Adds the registers as arguments.
fn add_registers(
    alloc: Global,
    registers: &[RegisterInfo],
    found: &mut Items<Port>,
) -> Result<(), OutOfMemory>
    ensures { OnOk result
        (found.new ≡ found.old ++ map spec.port (spec.register_widths registers.now)) }
{
    for register in registers {
        found.push(port(alloc, register.width)?)?;
    }
    Ok(())
}

/// The inputs and the registers as arguments.
fn ports(
    alloc: Global,
    inputs: &[u32],
    registers: &[RegisterInfo],
) -> Result<Items<Port>, OutOfMemory>
    ensures { IfOk result (λ found. found ≡ spec.ports inputs.now registers.now) }
{
    let mut found = Items::new(alloc);
    add_inputs(alloc, inputs, &mut found)?;
    add_registers(alloc, registers, &mut found)?;
    Ok(found)
}

/// The widths of all nodes, where each has one.
pub(crate) fn node_widths(
    alloc: Global,
    net_data: &NetData,
) -> Result<Option<Items<u32>>, OutOfMemory>
    requires few { length net_data.now.inputs + length net_data.now.registers < 2 ^ 32 }
    requires within { IsTrue (spec.are_within net_data.now) }
    ensures { IfOk result (λ found. found ≡ spec.node_widths net_data.now) }
{
    let inputs = net_data.inputs.len() as u32;
    let ports = ports(
        alloc,
        net_data.inputs.as_slice(),
        net_data.registers.as_slice(),
    )?;
    let nodes = as_nodes(
        alloc,
        inputs,
        net_data.registers.len(),
        net_data.nodes.as_slice(),
    )?;
    widths(alloc, ports.as_slice(), &[], &[], nodes.as_slice())
}
