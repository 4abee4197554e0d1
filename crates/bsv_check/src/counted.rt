ghost use Rattle.std.specs.Prelude.{◌≡◌};
ghost use Rattle.std.specs.List.{list_all};
ghost use Rattle.bsv_types.specs.Names.{countable};
ghost use Rattle.bsv_types.specs.Programs.{all_countable};
ghost use Rattle.bsv_check.specs.Rightness as spec;
ghost use Rattle.bsv_check.specs.Seen.{made_by};

use crate::checking::Parts;
use bsv_types::{Enum, Interface, Items, Module, Struct};

/// Whether a number of 32 bits names each place of a slice.
fn is_slice_countable<T>(items: &[T]) -> bool
    ensures { result ≡ countable items.now }
{
    (items.len() as u64) < 4_294_967_296
}

/// Whether a number of 32 bits names each place of a list.
fn is_countable<T>(items: &Items<T>) -> bool
    ensures { result ≡ countable items.now }
{
    is_slice_countable(items.as_slice())
}

/// Whether a number names each label of the enums.
fn are_enums_counted(enums: &[Enum]) -> bool
    ensures { result ≡ list_all spec.counted_enum enums.now }
{
    let mut rest = enums;
    while let Some((next, after)) = rest.split_first() {
        if !is_countable(&next.labels) {
            return false;
        }
        rest = after;
    }
    true
}

/// Whether a number names each field of the structs.
fn are_structs_counted(structs: &[Struct]) -> bool
    ensures { result ≡ list_all spec.counted_struct structs.now }
{
    let mut rest = structs;
    while let Some((next, after)) = rest.split_first() {
        if !is_countable(&next.fields) {
            return false;
        }
        rest = after;
    }
    true
}

/// Whether a number names each method of the interfaces.
fn are_interfaces_counted(interfaces: &[Interface]) -> bool
    ensures { result ≡ list_all spec.counted_interface interfaces.now }
{
    let mut rest = interfaces;
    while let Some((next, after)) = rest.split_first() {
        if !is_slice_countable(next.methods.as_slice()) {
            return false;
        }
        rest = after;
    }
    true
}

/// Whether a number names each rule and each method of the modules.
fn are_modules_counted(modules: &[Module]) -> bool
    ensures { result ≡ list_all spec.counted_module modules.now }
{
    let mut rest = modules;
    while let Some((next, after)) = rest.split_first() {
        if !is_countable(&next.rules) || !is_countable(&next.methods) {
            return false;
        }
        rest = after;
    }
    true
}

/// Whether a number names each definition.
fn are_definitions_counted(parts: &Parts) -> bool
    ensures { result ≡ all_countable parts.now.types.enums parts.now.types.structs
        parts.now.types.interfaces parts.now.done.functions parts.now.done.modules }
{
    is_countable(&parts.types.enums)
        && is_countable(&parts.types.structs)
        && is_countable(&parts.types.interfaces)
        && is_countable(&parts.done.functions)
        && is_countable(&parts.done.modules)
}

/// Whether a number of 32 bits names each place of each list that is numbered.
#[tactic(auto, unfolding(crate::specs::Rightness::is_counted))]
pub(crate) fn is_counted(parts: &Parts) -> bool
    ensures { result ≡ spec.is_counted (made_by parts.now) }
{
    are_definitions_counted(parts)
        && are_enums_counted(parts.types.enums.as_slice())
        && are_structs_counted(parts.types.structs.as_slice())
        && are_interfaces_counted(parts.types.interfaces.as_slice())
        && are_modules_counted(parts.done.modules.as_slice())
}
