ghost use Rattle.std.specs.Prelude.{◌≡◌, ◌++◌, IsTrue, OnOk};
ghost use Rattle.bsv_guard.specs.Fitting.{HaveWidths};
ghost use Rattle.bsv_net.specs.Nets.{register_widths};

use anyhow::{Result, bail};
use bsv_bits::{OutOfMemory, Word};
use bsv_net::Net;
use bsv_prim::RegisterInfo;
use sqlite_items::Items;
use std::alloc::Global;

/// Whether there is a word for each width, which has this width.
fn have_widths(widths: &[u32], words: &[Word]) -> bool
    ensures { IsTrue result → HaveWidths widths.now words.now }
{
    let mut rest = widths;
    let mut left = words;
    while let Some((width, after)) = rest.split_first() {
        let Some((word, behind)) = left.split_first() else {
            return false;
        };
        if word.width() != *width {
            return false;
        }
        rest = after;
        left = behind;
    }
    left.is_empty()
}

/// Adds the widths of registers.
fn add_widths(registers: &[RegisterInfo], widths: &mut Items<u32>) -> Result<(), OutOfMemory>
    ensures { OnOk result (widths.new ≡ widths.old ++ register_widths registers.now) }
{
    for register in registers {
        widths.push(register.width)?;
    }
    Ok(())
}

/// The words of all nodes of a net in a clock in which registers and inputs have these words.
pub(crate) fn evaluated(
    alloc: Global,
    net: &Net,
    registers: &[Word],
    inputs: &[Word],
) -> Result<Vec<Word>> {
    let mut widths = Items::new(alloc);
    add_widths(net.registers.as_slice(), &mut widths)?;
    if !have_widths(widths.as_slice(), registers) {
        bail!("registers have other widths");
    }
    if !have_widths(net.inputs.as_slice(), inputs) {
        bail!("inputs have other widths");
    }
    let mut values = vec![in alloc; Word::bit(false); net.nodes.len()]?;
    net.eval(registers, inputs, &mut values);
    Ok(values)
}
