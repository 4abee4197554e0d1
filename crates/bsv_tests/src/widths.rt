use bsv_bits::{Name, Operator, Word};
use bsv_design::{Call, Condition, Element, Kind, NamedPart, Node, Port, Role};
use bsv_prim::{RWireKind, RegUKind};
use bsv_widths::{has_widths, is_countable, value_acts_not, widths};
use sqlite_items::Items;
use std::alloc::Global;
use std::process::Abort;
use std::test::Fail;

/// A register and a wire, of 8 bits each.
fn parts(alloc: Global) -> Result<Items<NamedPart>, Fail> {
    let mut parts = Items::new(alloc);
    parts.push(NamedPart {
        path: Name::new(alloc, b"count")?,
        kind: Kind::RegU(RegUKind { width: 8 }),
    })?;
    parts.push(NamedPart {
        path: Name::new(alloc, b"wire")?,
        kind: Kind::RWire(RWireKind { width: 8 }),
    })?;
    Ok(parts)
}

/// A call of a method of a part, with one argument or none.
fn call(alloc: Global, part: u32, method: u32, arg: Option<u32>) -> Result<Call, Fail> {
    let mut args = Items::new(alloc);
    if let Some(node) = arg {
        args.push(node)?;
    }
    Ok(Call {
        part,
        method,
        taken: 0,
        branches: Items::new(alloc),
        args,
    })
}

/// `count <= count + amount; return wget;`, where `amount` has so many bits.
fn element(alloc: Global, name: &str, role: Role, width: u32) -> Result<Element, Fail> {
    let mut arguments = Items::new(alloc);
    arguments.push(Port {
        name: Name::new(alloc, b"amount")?,
        width,
    })?;
    let mut nodes = Items::new(alloc);
    nodes.push(Node::Constant(Word::bit(true)))?;
    nodes.push(Node::Argument(0))?;
    nodes.push(Node::Result(0))?;
    nodes.push(Node::Two(Operator::Add, 2, 1))?;
    nodes.push(Node::Result(2))?;
    let mut calls = Items::new(alloc);
    calls.push(call(alloc, 0, 0, None)?)?;
    calls.push(call(alloc, 0, 1, Some(3))?)?;
    calls.push(call(alloc, 1, 1, None)?)?;
    let mut conditions = Items::new(alloc);
    conditions.push(Condition {
        truth: 0,
        taken: 0,
        implicit: None,
    })?;
    Ok(Element {
        name: Name::new(alloc, name.as_bytes())?,
        role,
        arguments,
        nodes,
        conditions,
        calls,
        result: Some(4),
    })
}

#[test]
fn nodes_have_their_widths(rt: HostRuntime) -> Result<(), Fail> {
    let alloc = rt.alloc();
    let parts = parts(alloc)?;
    let right = element(alloc, "add", Role::ActionValue, 8)?;
    let found = widths(
        alloc,
        right.arguments.as_slice(),
        parts.as_slice(),
        right.calls.as_slice(),
        right.nodes.as_slice(),
    )?;
    match found {
        Some(found) => assert_eq!(rt; found.as_slice(), [1, 8, 8, 8, 9].as_slice()),
        None => assert!(rt; false),
    }
    assert!(rt; has_widths(alloc, parts.as_slice(), &right)?);
    assert!(rt; is_countable(&right.nodes) && is_countable(&right.calls));
    Ok(())
}

#[test]
fn an_argument_of_another_width(rt: HostRuntime) -> Result<(), Fail> {
    let alloc = rt.alloc();
    let parts = parts(alloc)?;
    let wrong = element(alloc, "add", Role::ActionValue, 7)?;
    assert!(rt; !has_widths(alloc, parts.as_slice(), &wrong)?);
    let gives_nothing = element(alloc, "add", Role::Action, 8)?;
    assert!(rt; !has_widths(alloc, parts.as_slice(), &gives_nothing)?);
    Ok(())
}

#[test]
fn a_value_calls_nothing_that_acts(rt: HostRuntime) -> Result<(), Fail> {
    let alloc = rt.alloc();
    let parts = parts(alloc)?;
    let acting = element(alloc, "add", Role::Value, 8)?;
    assert!(rt; has_widths(alloc, parts.as_slice(), &acting)?);
    assert!(rt; !value_acts_not(parts.as_slice(), &acting));
    let may = element(alloc, "add", Role::ActionValue, 8)?;
    assert!(rt; value_acts_not(parts.as_slice(), &may));
    Ok(())
}
