ghost use Rattle.std.specs.Prelude.{◌≡◌, IsTrue, IfOk};
ghost use Rattle.bsv_guard.specs.Fitting.{HaveWidths};
ghost use Rattle.bsv_net.specs.Nets.{register_widths};

use crate::engine::Engine;
use bsv_bits::{Operator, OutOfMemory, Word};
use bsv_net::{Net, NetData, NetNode};
use bsv_prim::RegisterInfo;
use sqlite_items::Items;
use std::alloc::Global;
use std::process::Abort;
use std::test::Fail;

/// Whether there is a word for each width, which has this width.
fn have_widths(widths: &[u32], words: &[Word]) -> bool
    ensures { IsTrue result → HaveWidths widths.now words.now }
{
    let mut rest = widths;
    let mut left = words;
    while let Some((width, after)) = rest.split_first() {
        let Some((word, behind)) = left.split_first() else {
            return false;
        };
        if word.width() != *width {
            return false;
        }
        rest = after;
        left = behind;
    }
    left.is_empty()
}

/// The widths of registers.
fn widths_of(alloc: Global, registers: &[RegisterInfo]) -> Result<Items<u32>, OutOfMemory>
    ensures { IfOk result (λ widths. widths ≡ register_widths registers.now) }
{
    let mut widths = Items::new(alloc);
    for register in registers {
        widths.push(register.width)?;
    }
    Ok(widths)
}

/// The net of nodes that begin with the registers, where they are in order.
fn net_of(
    alloc: Global,
    inputs: &[u32],
    registers: &[u32],
    nodes: &[NetNode],
) -> Result<Option<Net>, OutOfMemory> {
    let mut infos = Items::new(alloc);
    let mut nexts = Items::new(alloc);
    for (place, width) in registers.iter().enumerate() {
        let Some(start) = Word::new(*width, 0) else {
            return Ok(None);
        };
        nexts.push(u32::try_from(place).unwrap_or(0))?;
        infos.push(RegisterInfo {
            width: *width,
            start,
            resets: true,
        })?;
    }
    let net_data = NetData {
        inputs: Items::from_slice(alloc, inputs)?,
        registers: infos,
        nodes: Items::from_slice(alloc, nodes)?,
        nexts,
        fires: Items::new(alloc),
        readies: Items::new(alloc),
        results: Items::new(alloc),
        sites: Items::new(alloc),
    };
    Net::new(alloc, net_data)
}

/// The first node whose word the engine and the net do not agree on, or the number of nodes.
fn agreed(
    alloc: Global,
    net: &Net,
    registers: &[Word],
    inputs: &[Word],
) -> Result<usize, OutOfMemory> {
    let widths = widths_of(alloc, net.registers.as_slice())?;
    if !have_widths(widths.as_slice(), registers) || !have_widths(net.inputs.as_slice(), inputs) {
        return Ok(0);
    }
    let mut values = vec![in alloc; Word::bit(false); net.nodes.len()]?;
    net.eval(registers, inputs, &mut values);
    let mut engine = Engine::of_net(alloc, net)?;
    engine.run(registers, inputs);
    for (place, word) in values.iter().enumerate() {
        let Ok(node) = u32::try_from(place) else {
            return Ok(place);
        };
        if engine.word(node) != *word || engine.is_one(node) != (word.value() == 1) {
            return Ok(place);
        }
    }
    Ok(values.len())
}

/// Nodes of each form, over words of this width, `high` below it, and `low` at most `high`.
fn nodes(width: u32, high: u32, low: u32) -> [NetNode; 40] {
    [
        NetNode::Register(0),
        NetNode::Register(1),
        NetNode::Input(0),
        NetNode::Input(1),
        NetNode::Input(2),
        NetNode::Not(2),
        NetNode::Not(3),
        NetNode::Not(6),
        NetNode::Two(Operator::And, 2, 3),
        NetNode::Two(Operator::Or, 2, 3),
        NetNode::Two(Operator::Xor, 2, 3),
        NetNode::Two(Operator::Add, 2, 3),
        NetNode::Two(Operator::Add, 2, 11),
        NetNode::Two(Operator::Sub, 2, 3),
        NetNode::Two(Operator::Sub, 3, 2),
        NetNode::Two(Operator::Mul, 2, 3),
        NetNode::Two(Operator::Same, 2, 3),
        NetNode::Two(Operator::Same, 2, 2),
        NetNode::Two(Operator::Less, 2, 3),
        NetNode::Two(Operator::Less, 3, 2),
        NetNode::Two(Operator::Less, 2, 2),
        NetNode::Two(Operator::LessSigned, 2, 3),
        NetNode::Two(Operator::LessSigned, 3, 2),
        NetNode::Two(Operator::LessSigned, 2, 2),
        NetNode::Two(Operator::Shl, 2, 0),
        NetNode::Two(Operator::Shl, 2, 1),
        NetNode::Two(Operator::Shl, 2, 3),
        NetNode::Two(Operator::Shr, 2, 0),
        NetNode::Two(Operator::Shr, 2, 1),
        NetNode::Two(Operator::Sar, 2, 0),
        NetNode::Two(Operator::Sar, 3, 1),
        NetNode::Two(Operator::Sar, 2, 1),
        NetNode::Pick(4, 2, 3),
        NetNode::Pick(17, 2, 3),
        NetNode::Slice(2, high, low),
        NetNode::Slice(2, high, high),
        NetNode::Join(4, 34),
        NetNode::Extend(2, width),
        NetNode::SignExtend(2, 128),
        NetNode::Extend(4, 64),
    ]
}

const ONES: u128 = u128::MAX;

const WIDTHS: [u32; 7] = [1, 2, 63, 64, 65, 127, 128];

/// Whether the engine and the net agree on each form, with these values in words of this width.
fn agree(alloc: Global, width: u32, a: u128, b: u128, amount: u32) -> Result<bool, OutOfMemory> {
    let high = width.saturating_sub(1);
    let nodes = nodes(width, high, high / 2);
    let Some(net) = net_of(alloc, &[width, width, 1], &[64, 128], &nodes)? else {
        return Ok(false);
    };
    let fits = ONES >> (128 - width.max(1).min(128));
    let (Some(one), Some(two)) = (Word::new(width, a & fits), Word::new(width, b & fits)) else {
        return Ok(false);
    };
    let (Some(by), Some(far)) = (
        Word::new(64, amount as u128),
        Word::new(128, amount as u128),
    ) else {
        return Ok(false);
    };
    let found = agreed(
        alloc,
        &net,
        &[by, far],
        &[one, two, Word::bit(amount % 2 == 1)],
    )?;
    Ok(found == net.nodes.len())
}

#[test]
fn each_form_gives_its_word(rt: HostRuntime) -> Result<(), Fail> {
    for width in WIDTHS {
        for (a, b) in [
            (0, 0),
            (ONES, 1),
            (1, ONES),
            (
                0x8123_4567_89ab_cdef_8123_4567_89ab_cdef,
                0x0123_4567_89ab_cdef_7123_4567_89ab_cdee,
            ),
            (1 << 63, (1 << 127) + (1 << 62)),
        ] {
            for amount in [0, 1, 31, 62, 63, 64, 65, 126, 127, 128, 129] {
                assert!(rt;
                    agree(rt.alloc(), width, a, b, amount)?,
                    "{width} {a} {b} {amount}"
                );
            }
        }
    }
    Ok(())
}
