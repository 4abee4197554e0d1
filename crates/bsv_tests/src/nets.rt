use bsv_bits::{Operator, Word};
use bsv_net::{Net, NetData, NetNode};
use bsv_prim::RegisterInfo;
use sqlite_items::Items;
use std::alloc::Global;
use std::test::Fail;

/// One input of 4 bits, and one register of 4 bits, which takes over the word of a node.
fn net_data(alloc: Global, nodes: &[NetNode], next: u32) -> Result<NetData, Fail> {
    let register = RegisterInfo {
        width: 4,
        start: Word::zero(4),
        resets: true,
    };
    Ok(NetData {
        inputs: Items::from_slice(alloc, &[4])?,
        registers: Items::from_slice(alloc, &[register])?,
        nodes: Items::from_slice(alloc, nodes)?,
        nexts: Items::from_slice(alloc, &[next])?,
        fires: Items::new(alloc),
        readies: Items::new(alloc),
        results: Items::new(alloc),
        sites: Items::new(alloc),
    })
}

#[test]
fn a_node_that_uses_itself(rt: HostRuntime) -> Result<(), Fail> {
    let alloc = rt.alloc();
    let nodes = [NetNode::Register(0), NetNode::Two(Operator::Add, 0, 1)];
    assert!(rt; Net::new(alloc, net_data(alloc, &nodes, 0)?)?.is_none());
    Ok(())
}

#[test]
fn a_next_word_of_another_width(rt: HostRuntime) -> Result<(), Fail> {
    let alloc = rt.alloc();
    let nodes = [NetNode::Register(0), NetNode::Slice(0, 2, 0)];
    assert!(rt; Net::new(alloc, net_data(alloc, &nodes, 0)?)?.is_some());
    assert!(rt; Net::new(alloc, net_data(alloc, &nodes, 1)?)?.is_none());
    Ok(())
}

/// Threads may share what workers share.
fn is_shared<T: Sync>(_value: &T) {}

#[test]
fn a_copy_of_a_net(rt: HostRuntime) -> Result<(), Fail> {
    let alloc = rt.alloc();
    let nodes = [NetNode::Register(0), NetNode::Slice(0, 2, 0)];
    let found = Net::new(alloc, net_data(alloc, &nodes, 0)?)?;
    assert!(rt; found.is_some());
    if let Some(net) = found {
        let copy = net.copy(alloc)?;
        is_shared(&net);
        assert_eq!(rt; copy.inputs.as_slice(), [4].as_slice());
        assert_eq!(rt; copy.registers.as_slice(), net.registers.as_slice());
        assert_eq!(rt; copy.nodes.as_slice(), nodes.as_slice());
        assert_eq!(rt; copy.nexts.as_slice(), [0].as_slice());
        assert!(rt; copy.sites.is_empty());
    }
    Ok(())
}
