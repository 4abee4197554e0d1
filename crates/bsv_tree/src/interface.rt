ghost use Rattle.std.specs.Prelude.{◌≡◌, ◌<◌, length, IsTrue, IsSome, option_map, slice_get};
ghost use Rattle.bsv_tree.specs.tree.Methods.{interface_names, is_kind_of, number_from, part_method};
ghost use Rattle.bsv_design.specs.parts.MethodNames.{method_names};
ghost use Rattle.bsv_types.specs.declared.types.PartTy.TheVariants as part_type;

use bsv_design::Kind;
use bsv_prim::Primitive;
use bsv_types::PartTy;

fn register_method(number: u32) -> Option<&'static str>
    ensures { option_map (λ name. name.now) result
        ≡ slice_get (interface_names part_type.Reg) number }
{
    match number {
        0 => Some("_read"),
        1 => Some("_write"),
        _ => None,
    }
}

fn wire_method(number: u32) -> Option<&'static str>
    ensures { option_map (λ name. name.now) result
        ≡ slice_get (interface_names part_type.Wire) number }
{
    match number {
        0 => Some("_write"),
        1 => Some("_read"),
        _ => None,
    }
}

fn rwire_method(number: u32) -> Option<&'static str>
    ensures { option_map (λ name. name.now) result
        ≡ slice_get (interface_names part_type.RWire) number }
{
    match number {
        0 => Some("wset"),
        1 => Some("wget"),
        _ => None,
    }
}

fn pulse_method(number: u32) -> Option<&'static str>
    ensures { option_map (λ name. name.now) result
        ≡ slice_get (interface_names part_type.PulseWire) number }
{
    match number {
        0 => Some("send"),
        1 => Some("_read"),
        _ => None,
    }
}

fn fifo_method(number: u32) -> Option<&'static str>
    ensures { option_map (λ name. name.now) result
        ≡ slice_get (interface_names part_type.Fifo) number }
{
    match number {
        0 => Some("enq"),
        1 => Some("deq"),
        2 => Some("first"),
        3 => Some("clear"),
        _ => None,
    }
}

fn fifof_method(number: u32) -> Option<&'static str>
    ensures { option_map (λ name. name.now) result
        ≡ slice_get (interface_names part_type.Fifof) number }
{
    match number {
        0 => Some("enq"),
        1 => Some("deq"),
        2 => Some("first"),
        3 => Some("notFull"),
        4 => Some("notEmpty"),
        5 => Some("clear"),
        _ => None,
    }
}

/// The name of a method of an interface that the language gives.
fn part_method_name(part: PartTy, number: u32) -> Option<&'static str>
    ensures { option_map (λ name. name.now) result ≡ slice_get (interface_names part) number }
{
    match part {
        PartTy::Reg => register_method(number),
        PartTy::Wire => wire_method(number),
        PartTy::RWire => rwire_method(number),
        PartTy::PulseWire => pulse_method(number),
        PartTy::Fifo => fifo_method(number),
        PartTy::Fifof => fifof_method(number),
    }
}

/// The number of the kind's method of the name.
#[tactic(auto, using(crate::proofs::Numbered::numbered))]
fn number_named(kind: Kind, name: &str) -> Option<u32>
    ensures { result ≡ number_from 0 name.now (method_names kind) }
{
    for number in 0..kind.methods() {
        if kind.method_name(number).as_bytes() == name.as_bytes() {
            return Some(number);
        }
    }
    None
}

/// The number that the kind has for a method of an interface: the two have one name.
#[tactic(auto, unfolding(crate::specs::tree::Methods::part_method))]
fn same_named(part: PartTy, kind: Kind, number: u32) -> Option<u32>
    ensures { result ≡ part_method part kind number }
{
    match part_method_name(part, number) {
        Some(name) => number_named(kind, name),
        None => None,
    }
}

/// The number that the kind has for a method of an interface that the language gives: the two have one name. A kind
/// that instances of the interface have has each of its methods.
#[tactic(auto, using(crate::proofs::Meeting::meeting))]
pub fn part_method_number(part: PartTy, kind: Kind, number: u32) -> Option<u32>
    ensures number { result ≡ part_method part kind number }
    ensures meets { IsTrue (is_kind_of part kind) → number < length (interface_names part)
        → IsSome result }
{
    same_named(part, kind, number)
}
