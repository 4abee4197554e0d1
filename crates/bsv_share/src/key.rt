ghost use Rattle.std.specs.Prelude.{◌≡◌};
ghost use Rattle.bsv_share.specs.Keys as spec;

use bsv_bits::Operator;
use bsv_net::NetNode;

/// A node as numbers: its form, the numbers in it, and the value of a constant.
#[derive(Clone, Copy, PartialEq, Eq, Hash)]
pub struct Key {
    pub form: u32,
    pub first: u32,
    pub second: u32,
    pub third: u32,
    pub value: u128,
}

/// The number of the form of an operator.
fn operator_form(operator: Operator) -> u32
    ensures { result ≡ spec.operator_form operator }
{
    match operator {
        Operator::Add => 4,
        Operator::Sub => 5,
        Operator::Mul => 6,
        Operator::And => 7,
        Operator::Or => 8,
        Operator::Xor => 9,
        Operator::Same => 10,
        Operator::Less => 11,
        Operator::LessSigned => 12,
        Operator::Shl => 13,
        Operator::Shr => 14,
        Operator::Sar => 15,
    }
}

/// The key of these numbers.
fn numbers(form: u32, first: u32, second: u32, third: u32) -> Key
    ensures { result ≡ spec.numbers form first second third }
{
    Key {
        form,
        first,
        second,
        third,
        value: 0,
    }
}

/// The node as numbers.
pub fn key_of(node: NetNode) -> Key
    ensures { result ≡ spec.key_of node }
{
    match node {
        NetNode::Input(number) => numbers(0, number, 0, 0),
        NetNode::Register(number) => numbers(1, number, 0, 0),
        NetNode::Constant(word) => Key {
            form: 2,
            first: word.width(),
            second: 0,
            third: 0,
            value: word.value(),
        },
        NetNode::Not(a) => numbers(3, a, 0, 0),
        NetNode::Two(operator, a, b) => numbers(operator_form(operator), a, b, 0),
        NetNode::Pick(test, a, b) => numbers(16, test, a, b),
        NetNode::Slice(a, high, low) => numbers(17, a, high, low),
        NetNode::Join(a, b) => numbers(18, a, b, 0),
        NetNode::Extend(a, width) => numbers(19, a, width, 0),
        NetNode::SignExtend(a, width) => numbers(20, a, width, 0),
    }
}
