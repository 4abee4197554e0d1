ghost use Rattle.std.specs.Prelude.{◌≡◌};
ghost use Rattle.bsv_net.specs.Placing.{node_at};
ghost use Rattle.bsv_share.specs.Operands as spec;

use bsv_net::{NetNode, node_at};

/// The node that reads, in place of each node, the one that is at its place in the list.
pub fn renamed(node: NetNode, places: &[u32]) -> NetNode
    ensures { result ≡ spec.renamed (node_at places.now) node }
{
    match node {
        NetNode::Input(number) => NetNode::Input(number),
        NetNode::Register(number) => NetNode::Register(number),
        NetNode::Constant(word) => NetNode::Constant(word),
        NetNode::Not(a) => NetNode::Not(node_at(places, a)),
        NetNode::Two(operator, a, b) => {
            NetNode::Two(operator, node_at(places, a), node_at(places, b))
        }
        NetNode::Pick(test, a, b) => NetNode::Pick(
            node_at(places, test),
            node_at(places, a),
            node_at(places, b),
        ),
        NetNode::Slice(a, high, low) => NetNode::Slice(node_at(places, a), high, low),
        NetNode::Join(a, b) => NetNode::Join(node_at(places, a), node_at(places, b)),
        NetNode::Extend(a, width) => NetNode::Extend(node_at(places, a), width),
        NetNode::SignExtend(a, width) => NetNode::SignExtend(node_at(places, a), width),
    }
}

/// The first node that a node reads, or the first of all.
pub fn first_operand(node: NetNode) -> u32
    ensures { result ≡ spec.first_operand node }
{
    match node {
        NetNode::Input(_) | NetNode::Register(_) | NetNode::Constant(_) => 0,
        NetNode::Not(a) => a,
        NetNode::Two(_, a, _) => a,
        NetNode::Pick(test, _, _) => test,
        NetNode::Slice(a, _, _) => a,
        NetNode::Join(a, _) => a,
        NetNode::Extend(a, _) => a,
        NetNode::SignExtend(a, _) => a,
    }
}
