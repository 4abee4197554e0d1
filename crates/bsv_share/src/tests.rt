use crate::share;
use bsv_bits::{Operator, Word};
use bsv_net::{Net, NetData, NetNode, Site};
use bsv_prim::RegisterInfo;
use sqlite_items::Items;
use std::alloc::Global;
use std::process::Abort;
use std::test::Fail;

/// A net with an input and a register of this width, and a result of each of these nodes.
fn net(alloc: Global, width: u32, nodes: &[NetNode], results: &[u32]) -> Result<Net, Fail> {
    let mut registers = Items::new(alloc);
    if let Some(start) = Word::new(width, 0) {
        registers.push(RegisterInfo {
            width,
            start,
            resets: true,
        })?;
    }
    let mut sites = Items::new(alloc);
    let none: Items<Site> = Items::new(alloc);
    sites.push(none)?;
    let net_data = NetData {
        inputs: Items::from_slice(alloc, &[width])?,
        registers,
        nodes: Items::from_slice(alloc, nodes)?,
        nexts: Items::from_slice(alloc, &[1])?,
        fires: Items::new(alloc),
        readies: Items::new(alloc),
        results: Items::from_slice(alloc, results)?,
        sites,
    };
    match Net::new(alloc, net_data)? {
        Some(net) => Ok(net),
        None => Err(Fail::new("no net")),
    }
}

/// The nodes of the net that is shared are these, in this order, and its results are those.
fn check(
    rt: &impl Abort,
    alloc: Global,
    width: u32,
    before: (&[NetNode], &[u32]),
    after: (&[NetNode], &[u32]),
) -> Result<(), Fail> {
    let net = net(alloc, width, before.0, before.1)?;
    let made = share(alloc, &net)?;
    assert_eq!(rt; made.nodes.as_slice(), after.0, "of {width} bits");
    assert_eq!(rt; made.results.as_slice(), after.1, "of {width} bits");
    assert!(rt; made.sites.is_empty() && made.nexts.len() == 1);
    assert!(rt; made.inputs.len() == 1 && made.registers.len() == 1);
    Ok(())
}

/// A word of so many bits that are all 1.
fn ones(width: u32) -> Result<Word, Fail> {
    match Word::new(width, 0) {
        Some(word) => Ok(word.not()),
        None => Err(Fail::new("no word")),
    }
}

/// A constant.
fn constant(width: u32, value: u128) -> Result<NetNode, Fail> {
    match Word::new(width, value) {
        Some(word) => Ok(NetNode::Constant(word)),
        None => Err(Fail::new("no word")),
    }
}

#[test]
fn equal_nodes_are_there_once(rt: HostRuntime) -> Result<(), Fail> {
    let before = [
        NetNode::Input(0),
        NetNode::Register(0),
        NetNode::Two(Operator::Add, 0, 1),
        NetNode::Register(0),
        NetNode::Two(Operator::Add, 0, 3),
        NetNode::Two(Operator::Xor, 2, 4),
        NetNode::Not(2),
        NetNode::Two(Operator::Mul, 0, 0),
    ];
    let after = [
        NetNode::Input(0),
        NetNode::Register(0),
        NetNode::Two(Operator::Add, 0, 1),
        NetNode::Not(2),
        NetNode::Two(Operator::Xor, 2, 2),
    ];
    check(
        &rt,
        rt.alloc(),
        64,
        (&before, &[5, 4, 6, 8, 2]),
        (&after, &[4, 2, 3, 5, 2]),
    )
}

#[test]
fn constants_are_computed(rt: HostRuntime) -> Result<(), Fail> {
    for width in [2, 63, 64, 65, 127, 128] {
        let before = [
            NetNode::Input(0),
            NetNode::Register(0),
            NetNode::Constant(ones(width)?),
            constant(width, 2)?,
            NetNode::Two(Operator::Add, 2, 3),
            NetNode::Slice(4, 0, 0),
            NetNode::Pick(5, 0, 1),
            NetNode::Two(Operator::Sub, 6, 4),
            NetNode::Slice(2, 1, 1),
            NetNode::SignExtend(8, width),
        ];
        let after = [
            NetNode::Input(0),
            NetNode::Register(0),
            NetNode::Constant(ones(width)?),
            constant(width, 1)?,
            NetNode::Two(Operator::Sub, 0, 3),
        ];
        check(
            &rt,
            rt.alloc(),
            width,
            (&before, &[7, 9, 10]),
            (&after, &[4, 2, 5]),
        )?;
    }
    Ok(())
}

#[test]
fn nodes_of_other_widths_differ(rt: HostRuntime) -> Result<(), Fail> {
    let before = [
        NetNode::Input(0),
        NetNode::Register(0),
        NetNode::Extend(0, 65),
        NetNode::Extend(0, 64),
        NetNode::SignExtend(0, 64),
        constant(64, 0)?,
        constant(65, 0)?,
    ];
    let after = [
        NetNode::Input(0),
        NetNode::Register(0),
        constant(64, 0)?,
        constant(65, 0)?,
        NetNode::Extend(0, 65),
        NetNode::Extend(0, 64),
        NetNode::SignExtend(0, 64),
    ];
    check(
        &rt,
        rt.alloc(),
        63,
        (&before, &[2, 3, 4, 5, 6]),
        (&after, &[4, 5, 6, 2, 3]),
    )
}

#[test]
fn nodes_of_an_earlier_word(rt: HostRuntime) -> Result<(), Fail> {
    for (node, same) in [
        (NetNode::Not(4), 0),
        (NetNode::Pick(5, 0, 0), 0),
        (NetNode::Pick(6, 0, 1), 0),
        (NetNode::Pick(7, 0, 1), 1),
        (NetNode::Pick(5, 6, 7), 5),
        (NetNode::Two(Operator::And, 0, 2), 0),
        (NetNode::Two(Operator::And, 2, 0), 0),
        (NetNode::Two(Operator::And, 0, 3), 3),
        (NetNode::Two(Operator::And, 3, 0), 3),
        (NetNode::Two(Operator::Or, 0, 2), 2),
        (NetNode::Two(Operator::Or, 2, 0), 2),
        (NetNode::Two(Operator::Or, 0, 3), 0),
        (NetNode::Two(Operator::Or, 3, 0), 0),
        (NetNode::Extend(0, 9), 0),
        (NetNode::SignExtend(0, 9), 0),
        (NetNode::Slice(0, 8, 0), 0),
        (NetNode::Slice(0, 8, 1), 8),
        (NetNode::Slice(0, 7, 0), 8),
        (NetNode::Pick(5, 7, 6), 8),
        (NetNode::Two(Operator::Xor, 0, 3), 8),
    ] {
        let before = [
            NetNode::Input(0),
            NetNode::Register(0),
            NetNode::Constant(ones(9)?),
            constant(9, 0)?,
            NetNode::Not(0),
            NetNode::Slice(0, 3, 3),
            constant(1, 1)?,
            constant(1, 0)?,
            node,
        ];
        let results = [0, 1, 2, 3, 4, 5, 6, 7, 8];
        let net = net(rt.alloc(), 9, &before, &results)?;
        let made = share(rt.alloc(), &net)?;
        let places = made.results.as_slice();
        assert!(rt;
            places.len() == 9 && places.get(8) == places.get(same),
            "{node:?}"
        );
        assert_eq!(rt; made.nodes.len(), if same == 8 { 9 } else { 8 }, "{node:?}");
    }
    Ok(())
}
