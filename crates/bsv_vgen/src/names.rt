ghost use Rattle.std.specs.Prelude.{◌≡◌, ◌++◌, codes, decimal, map, IfOk, OnOk};
ghost use Rattle.bsv_vgen.specs.Names as spec;
ghost use Rattle.bsv_vtext.specs.Signals.{fire_name};

use bsv_bits::{Name, OutOfMemory};
use bsv_design::{Kind, NamedPart};
use itoa::Buffer;
use sqlite_items::Items;
use std::alloc::Global;

/// The text, and after it a decimal number.
fn with_number(alloc: Global, front: &[u8], number: u32) -> Result<Name, OutOfMemory>
    ensures { IfOk result (λ name. name ≡ front.now ++ decimal number) }
{
    let mut text = Vec::from_slice(alloc, front)?;
    let mut digits = Buffer::new();
    text.extend_from_slice(digits.format(number).as_bytes())?;
    Name::new(alloc, text.as_slice())
}

/// The name of a wire that stands for a word.
pub(crate) fn numbered_name(alloc: Global, number: u32) -> Result<Name, OutOfMemory>
    ensures { IfOk result (λ name. name ≡ codes "N" ++ decimal number) }
{
    with_number(alloc, b"N", number)
}

/// A dot is written as `$`.
fn written(byte: u8) -> u8
    ensures { result ≡ spec.written byte }
{
    if byte == b'.' { b'$' } else { byte }
}

/// The text, and after it a path.
fn with_path(alloc: Global, front: &[u8], path: &[u8]) -> Result<Vec<u8>, OutOfMemory>
    ensures { IfOk result (λ text. text.items ≡ front.now ++ spec.verilog_name path.now) }
{
    let mut text = Vec::from_slice(alloc, front)?;
    for byte in path {
        text.push(written(*byte))?;
    }
    Ok(text)
}

/// The name of the wire that tells that an element fires.
pub(crate) fn fire_name(alloc: Global, name: &[u8]) -> Result<Name, OutOfMemory>
    ensures { IfOk result (λ own. own ≡ fire_name (spec.verilog_name name.now)) }
{
    let text = with_path(alloc, b"WILL_FIRE_", name)?;
    Name::new(alloc, text.as_slice())
}

/// The name of a register of the part of a path.
fn register_name(alloc: Global, path: &[u8], suffix: &[u8]) -> Result<Name, OutOfMemory>
    ensures { IfOk result (λ name. name ≡ spec.verilog_name path.now ++ suffix.now) }
{
    let mut text = with_path(alloc, b"", path)?;
    text.extend_from_slice(suffix)?;
    Name::new(alloc, text.as_slice())
}

/// The name of the register of an item of a queue.
fn item_name(alloc: Global, path: &[u8], number: u32) -> Result<Name, OutOfMemory>
    ensures { IfOk result (λ name. name
        ≡ spec.verilog_name path.now ++ spec.item_suffix number) }
{
    let suffix = with_number(alloc, b"$D", number)?;
    register_name(alloc, path, suffix.bytes())
}

/// Adds the names of the registers of a queue.
fn add_queue(
    alloc: Global,
    names: &mut Items<Name>,
    path: &[u8],
    depth: u32,
) -> Result<(), OutOfMemory>
    ensures { OnOk result (names.new ≡ names.old
        ++ map (λ s. spec.verilog_name path.now ++ s) (spec.queue_suffixes depth)) }
{
    let count = register_name(alloc, path, b"$N")?;
    names.push(count)?;
    for number in 0..depth {
        let item = item_name(alloc, path, number)?;
        names.push(item)?;
    }
    Ok(())
}

/// Adds the names of the registers of a part.
fn add_part(alloc: Global, names: &mut Items<Name>, part: &NamedPart) -> Result<(), OutOfMemory>
    ensures { OnOk result (names.new ≡ names.old ++ spec.part_names part.now) }
{
    let path = part.path.bytes();
    match part.kind {
        Kind::Reg(_) | Kind::RegU(_) => {
            let name = register_name(alloc, path, b"$Q")?;
            names.push(name)?;
            Ok(())
        }
        Kind::Plain(queue) => add_queue(alloc, names, path, queue.depth),
        Kind::Pipeline(_) | Kind::Bypass(_) => add_queue(alloc, names, path, 1),
        Kind::Wire(_) | Kind::DWire(_) | Kind::RWire(_) | Kind::Pulse(_) => Ok(()),
    }
}

/// The names of the registers of all parts, in building order.
#[tactic(auto, unfolding(crate::specs::Names::register_names))]
pub(crate) fn register_names(alloc: Global, parts: &[NamedPart]) -> Result<Items<Name>, OutOfMemory>
    ensures { IfOk result (λ names. names ≡ spec.register_names parts.now) }
{
    let mut names = Items::new(alloc);
    let mut rest = parts;
    while let Some((part, after)) = rest.split_first() {
        add_part(alloc, &mut names, part)?;
        rest = after;
    }
    Ok(names)
}
