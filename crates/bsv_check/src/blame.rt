ghost use Rattle.std.specs.Prelude.{◌≡◌, OnOk};
ghost use Rattle.bsv_names.specs.Faults.{in_package};
ghost use Rattle.bsv_names.specs.UntypedSeen.{reached};
ghost use Rattle.bsv_check.specs.Blame as spec;
ghost use Rattle.bsv_check.specs.Seen.{blame_of};

use bsv_ast::{Item, Span};
use bsv_bits::{Name, OutOfMemory};
use bsv_names::{Place, Reach, Untyped};
use bsv_scopes::Scope;
use std::alloc::Global;

/// What has no typing so far, and the place of the first fault that is blamed.
#[derive(Drop)]
pub(crate) struct Blame {
    pub(crate) untyped: Untyped,
    /// Of each function, how many of those before it have no typing.
    pub(crate) reaches: Scope<usize>,
    pub(crate) fault: Option<Place>,
}

/// Whether the first place comes before the second one in load and text order.
fn precedes(first: Place, second: Place) -> bool
    ensures { result ≡ spec.precedes first second }
{
    first.package < second.package
        || first.package == second.package && first.span.start < second.span.start
}

/// The earlier one of two places.
pub(crate) fn earlier(fault: Option<Place>, place: Place) -> Place
    ensures { result ≡ spec.earlier fault place }
{
    match fault {
        Some(first) if !precedes(place, first) => first,
        _ => place,
    }
}

/// The fault that is told where an item has no typing, at the place. One that leans on another is
/// passed over, where one is blamed already.
fn blamed_at(leaning: bool, place: Place, fault: Option<Place>) -> Place
    ensures { result ≡ spec.blamed_at leaning place fault }
{
    match fault {
        Some(first) if leaning => first,
        _ => earlier(fault, place),
    }
}

impl Blame {
    /// All has a typing so far.
    pub(crate) fn none(alloc: Global) -> Blame
        ensures { blame_of result ≡ spec.blameless }
    {
        Blame {
            untyped: Untyped::new(alloc),
            reaches: Scope::new(alloc),
            fault: None,
        }
    }

    /// An item has no typing. It is blamed at the place, unless it leans on another one.
    pub(crate) fn add(
        &mut self,
        alloc: Global,
        item: &Item,
        leaning: bool,
        number: u32,
        span: Span,
    ) -> Result<(), OutOfMemory>
        ensures { OnOk result (blame_of self.new
            ≡ spec.without_typing item.now leaning (in_package number span) (blame_of self.old)) }
    {
        self.untyped.add(alloc, item)?;
        let place = Place {
            package: number,
            span,
        };
        self.fault = Some(blamed_at(leaning, place, self.fault));
        Ok(())
    }

    /// The functions without a typing that a function may call: they come before it.
    pub(crate) fn add_reach(&mut self, alloc: Global, item: &Item) -> Result<(), OutOfMemory>
        ensures { OnOk result (blame_of self.new ≡ spec.with_reach item.now (blame_of self.old)) }
    {
        if let Item::Function(_, written) = item {
            let name = Name::new(alloc, written.name.name.bytes())?;
            let _is_new = self.reaches.define(name, self.untyped.functions())?;
        }
        Ok(())
    }

    /// What has no typing, as the function of the name sees it.
    pub(crate) fn within_reach(&self, name: &Name) -> Reach<'_>
        ensures { reached result ≡ spec.within_reach (blame_of self.now) name.now }
    {
        let functions = match self.reaches.find(name) {
            Some(functions) => *functions,
            None => 0,
        };
        Reach {
            untyped: &self.untyped,
            functions,
        }
    }
}
