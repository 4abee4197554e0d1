ghost use Rattle.std.specs.Prelude.{◌≡◌};
ghost use Rattle.bsv_types.specs.Kinds.{kind};
ghost use Rattle.bsv_tree.specs.carrying.Applied as applied;
ghost use Rattle.bsv_tree.specs.carrying.Calls as calls;
ghost use Rattle.bsv_carry.specs.AtHand as spec;

use bsv_fail::Fail;
use bsv_tree::{Binding, Fault, Instance};
use bsv_types::{Field, Ty, Typed, counted_width};
use std::alloc::Global;

/// What each call has at hand.
#[derive(Clone, Copy)]
pub(crate) struct Carrier<'a> {
    pub alloc: Global,
    pub typed: &'a Typed,
    /// The instances whose methods may be called.
    pub instances: &'a [Instance],
    /// The module whose text is carried out, by its place.
    pub module: u32,
    /// The variables of the module that are in scope.
    pub bindings: &'a [Binding],
    /// How many calls in calls are left.
    pub depth: u32,
}

impl<'a> Carrier<'a> {
    /// What must be static is not, or a number leaves its range.
    pub(crate) fn static_fault(self) -> Fault
        ensures { result ≡ calls.static_fault (spec.site self.entry) }
    {
        Fault::Static(self.module)
    }

    /// The bits of a type.
    #[tactic(auto, unfolding(bsv_tree::specs::tree::Widths::width))]
    pub(crate) fn width(self, ty: &Ty) -> u32
        ensures { result ≡ spec.width self.entry (kind ty.now) }
    {
        match counted_width(&self.typed.enums, &self.typed.structs, ty) {
            Some(width) => width,
            None => 1,
        }
    }

    /// The fields of a struct.
    pub(crate) fn fields(self, ty: &Ty) -> &'a [Field]
        ensures { result.now ≡ spec.fields self.entry (kind ty.now) }
    {
        match ty {
            Ty::Struct(number) => match self.typed.structs.get(*number as usize) {
                Some(found) => found.fields.as_slice(),
                None => &[],
            },
            _ => &[],
        }
    }
}
