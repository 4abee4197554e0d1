ghost use Rattle.std.specs.Prelude.{◌≡◌, IfOk, slice_get};
ghost use Rattle.bsv_tree.specs.tree.Elements.{method_name, place_name};
ghost use Rattle.bsv_inline.specs.Placed.{method_of};

use bsv_bits::Name;
use bsv_body::Laid;
use bsv_design::path_of;
use bsv_tree::{Instance, Made, MethodPlace};
use bsv_types::Module;
use std::alloc::Global;

/// The name of a method of a module.
fn method_name(modules: &[Module], place: u32, method: u32) -> &[u8]
    ensures { result.now ≡ method_name (method_of (slice_get modules.now place) method) }
{
    match modules.get(place as usize) {
        Some(module) => match module.methods.get(method as usize) {
            Some(method) => method.name.bytes(),
            None => b"",
        },
        None => b"",
    }
}

/// The path and the name of a method of a module.
pub(crate) fn name_of(
    alloc: Global,
    modules: &[Module],
    instances: &[Instance],
    place: MethodPlace,
) -> Laid<Name>
    ensures { IfOk result (λ name. name ≡ place_name modules.now instances.now place) }
{
    let Some(instance) = instances.get(place.instance as usize) else {
        return Name::new(alloc, b"");
    };
    let path = instance.path.bytes();
    match &instance.made {
        Made::Primitive(..) => Name::new(alloc, path),
        Made::Module(built) => {
            let name = method_name(modules, built.module, place.method);
            path_of(alloc, path, name)
        }
    }
}
