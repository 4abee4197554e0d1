ghost use Rattle.std.specs.Prelude.{◌≡◌, IfOk, true, [], ◌∷◌, codes};
ghost use Rattle.bsv_bits.specs.Words.{bit};
ghost use Rattle.bsv_design.specs.parts.Kinds.{kind_table};

use bsv_bits::{Name, Word};
use bsv_design::{Call, Design, Element, Fired, Kind, NamedPart, Node, Requests, Role, State};
use bsv_prim::{Part, WireKind};
use sqlite_items::Items;
use std::alloc::Global;
use std::test::Fail;

const READ: u32 = 1;

const WIRE: Kind = Kind::Wire(WireKind { width: 8 });

/// A rule that reads the wire, which is the first part.
fn reading(alloc: Global) -> Result<Element, Fail>
    ensures { IfOk result (λ e. e ≡ record {
      name = codes "r";
      role = Role.Rule;
      arguments = [];
      nodes = Node.Constant (bit true) ∷ [];
      conditions = [];
      calls = record { part = 0; method = READ; taken = 0; branches = []; args = [] } ∷ [];
      result = None;
    }) }
{
    let name = Name::new(alloc, b"r")?;
    let mut nodes = Items::new(alloc);
    nodes.push(Node::Constant(Word::bit(true)))?;
    let mut calls = Items::new(alloc);
    calls.push(Call {
        part: 0,
        method: READ,
        taken: 0,
        branches: Items::new(alloc),
        args: Items::new(alloc),
    })?;
    Ok(Element {
        name,
        role: Role::Rule,
        arguments: Items::new(alloc),
        nodes,
        conditions: Items::new(alloc),
        calls,
        result: None,
    })
}

/// The wire, as a part.
fn wire(alloc: Global) -> Result<NamedPart, Fail>
    ensures path { IfOk result (λ p. p.path ≡ codes "w") }
    ensures methods { IfOk result (λ p. (kind_table p.kind).methods ≡ 2) }
    ensures arity { IfOk result (λ p. (kind_table p.kind).arity READ ≡ 0) }
{
    let path = Name::new(alloc, b"w")?;
    Ok(NamedPart { path, kind: WIRE })
}

/// The wire, and the rule that reads it.
fn design(alloc: Global) -> Result<Design, Fail> {
    let name = Name::new(alloc, b"top")?;
    let mut elements = Items::new(alloc);
    elements.push(reading(alloc)?)?;
    let mut parts = Items::new(alloc);
    parts.push(wire(alloc)?)?;
    let design = Design::new(name, elements, parts, Items::new(alloc), Items::new(alloc));
    Ok(design)
}

#[test]
fn states_and_requests(rt: HostRuntime) -> Result<(), Fail> {
    let alloc = rt.alloc();
    let design = design(alloc)?;
    let state = State::opening(alloc, &design)?;
    let copy = state.copy(alloc)?;
    assert_eq!(rt; (state.parts.len(), copy.parts.len()), (1, 1));
    for part in [&state.parts[0], &copy.parts[0]] {
        match part {
            Part::Held(held) => assert_eq!(rt; *held, None),
            _ => assert!(rt; false),
        }
    }
    let requests = Requests::new(alloc, &design)?;
    assert!(rt; requests.asked.is_empty() && requests.args.is_empty());
    let fired = Fired::new(alloc, &design)?;
    assert!(rt; fired.list.is_empty() && fired.blocked.is_empty());
    assert!(rt; fired.stopped.is_empty() && fired.results.is_empty());
    Ok(())
}
