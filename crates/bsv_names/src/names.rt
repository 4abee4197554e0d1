ghost use Rattle.std.specs.Prelude.{◌≡◌, IfOk, OnOk, is_some, not};
ghost use Rattle.bsv_scopes.specs.Scopes.{find_in, is_listed};
ghost use Rattle.bsv_scopes.specs.Seen.{scopes};
ghost use Rattle.bsv_names.specs.Faults as spec;
ghost use Rattle.bsv_names.specs.Known.{given, after, after_all, names_in, with_definition};
ghost use Rattle.bsv_names.specs.KnownSeen.{known};
ghost use Rattle.bsv_names.specs.PackageEvents.{package_events};
ghost use Rattle.bsv_names.specs.Twice.{defined_again};
ghost use Rattle.bsv_names.specs.Unknown.{used_unknown, after_packages};
ghost use Rattle.bsv_names.specs.Unknown as unknown_spec;

use crate::event::Event;
use crate::package_events::item_events;
use crate::place::Place;
use bsv_ast::{Package, Span};
use bsv_bits::{Name, OutOfMemory};
use bsv_scopes::{Definitions, Scopes, Space};
use std::alloc::Global;

/// What is looked for in the names of a program.
#[derive(Clone, Copy, Debug, PartialEq, Eq)]
pub(crate) enum Pass {
    /// A name that is defined twice in one scope.
    Twice,
    /// A name that has no definition in scope.
    Unknown,
}

/// The names that are known at a place of a program.
#[derive(Drop)]
pub(crate) struct Names {
    definitions: Definitions,
    variables: Scopes<()>,
}

impl Names {
    /// The names that the language gives.
    pub(crate) fn given(alloc: Global) -> Result<Names, OutOfMemory>
        ensures { IfOk result (λ names. known names ≡ given) }
    {
        Ok(Names {
            definitions: Definitions::given(alloc)?,
            variables: Scopes::new(alloc),
        })
    }

    /// Defines the name in the space, and says whether it was new there.
    #[tactic(auto, using(crate::proofs::Definitions::by_space))]
    fn define(&mut self, alloc: Global, space: Space, name: &Name) -> Result<bool, OutOfMemory>
        ensures is_new { IfOk result (λ r. r ≡ not
            (is_listed name.now (names_in space (known self.old)))) }
        ensures defined { OnOk result (known self.new
            ≡ with_definition space name.now (known self.old)) }
    {
        let copy = Name::new(alloc, name.bytes())?;
        Ok(self.definitions.define(space, copy)?)
    }

    /// Takes an event in, and gives its span where it defines a name again.
    fn take_in(&mut self, alloc: Global, event: &Event) -> Result<Option<Span>, OutOfMemory>
        ensures again { IfOk result (λ again. again ≡ defined_again (known self.old) event.now) }
        ensures after { OnOk result (known self.new ≡ after (known self.old) event.now) }
    {
        match event {
            Event::Define(space, name, span) => {
                let is_new = self.define(alloc, *space, name)?;
                Ok(if is_new { None } else { Some(*span) })
            }
            Event::DefineVariable(name, span) => {
                let copy = Name::new(alloc, name.bytes())?;
                let is_new = self.variables.define(copy, ())?;
                Ok(if is_new { None } else { Some(*span) })
            }
            Event::Open => {
                self.variables.open(alloc)?;
                Ok(None)
            }
            Event::Close => {
                self.variables.close();
                Ok(None)
            }
            Event::Use(_, _, _) | Event::UseVariable(_, _) | Event::UseValue(_, _) => Ok(None),
        }
    }

    /// Whether a variable of this name is in scope.
    fn is_variable(&self, name: &Name) -> bool
        ensures { result ≡ is_some (find_in name.now (scopes self.now.variables)) }
    {
        self.variables.find(name).is_some()
    }

    /// The span of an event that uses a name which is not known.
    fn unknown(&self, event: &Event) -> Option<Span>
        ensures { result ≡ used_unknown (known self.now) event.now }
    {
        let (is_known, span) = match event {
            Event::Use(space, name, span) => (self.definitions.is_defined(*space, name), *span),
            Event::UseVariable(name, span) => (self.is_variable(name), *span),
            Event::UseValue(name, span) => {
                let is_function = self.definitions.is_defined(Space::Functions, name);
                (self.is_variable(name) || is_function, *span)
            }
            Event::Define(_, _, _) | Event::DefineVariable(_, _) | Event::Open | Event::Close => {
                return None;
            }
        };
        if is_known { None } else { Some(span) }
    }

    /// Takes an event in, and gives its span where it is at fault.
    fn step(
        &mut self,
        alloc: Global,
        pass: Pass,
        event: &Event,
    ) -> Result<Option<Span>, OutOfMemory>
        ensures fault { IfOk result (λ r. r ≡ spec.fault pass (known self.old) event.now) }
        ensures after { OnOk result (known self.new ≡ after (known self.old) event.now) }
    {
        match pass {
            Pass::Twice => self.take_in(alloc, event),
            Pass::Unknown => {
                let fault = self.unknown(event);
                let _again = self.take_in(alloc, event)?;
                Ok(fault)
            }
        }
    }

    /// Takes all events in, and gives the span of the first one at fault.
    #[tactic(auto, using(crate::proofs::FirstFaults::in_turn))]
    fn over_events(
        &mut self,
        alloc: Global,
        pass: Pass,
        events: &[Event],
    ) -> Result<Option<Span>, OutOfMemory>
        ensures fault { IfOk result (λ r. r ≡ spec.first_fault pass (known self.old) events.now) }
        ensures after { OnOk result (known self.new ≡ after_all (known self.old) events.now) }
    {
        let mut first = None;
        let mut rest = events;
        while let Some((event, after)) = rest.split_first() {
            let fault = self.step(alloc, pass, event)?;
            first = first.or(fault);
            rest = after;
        }
        Ok(first)
    }

    /// Takes a package in, definition by definition, and gives the span of the first fault.
    #[tactic(auto, using(crate::proofs::FirstFaults::in_turn))]
    fn over_package(
        &mut self,
        alloc: Global,
        pass: Pass,
        package: &Package,
    ) -> Result<Option<Span>, OutOfMemory>
        ensures fault { IfOk result (λ r. r ≡ spec.first_fault pass (known self.old)
            (package_events «package».now)) }
        ensures after { OnOk result (known self.new
            ≡ after_all (known self.old) (package_events «package».now)) }
    {
        let mut first = None;
        let mut rest = package.items().as_slice();
        while let Some((item, after)) = rest.split_first() {
            let events = item_events(alloc, item)?;
            let fault = self.over_events(alloc, pass, events.as_slice())?;
            first = first.or(fault);
            rest = after;
        }
        Ok(first)
    }

    /// Takes all packages in, and gives the place of the first fault.
    #[tactic(auto, using(crate::proofs::FirstFaults::in_turn))]
    fn over_packages(
        &mut self,
        alloc: Global,
        pass: Pass,
        packages: &[Package],
    ) -> Result<Option<Place>, OutOfMemory>
        ensures fault { IfOk result (λ r. r ≡ spec.first_place pass 0
            (known self.old) packages.now) }
        ensures after { OnOk result (known self.new
            ≡ after_packages (known self.old) packages.now) }
    {
        let mut first = None;
        let mut number: u32 = 0;
        let mut rest = packages;
        while let Some((package, after)) = rest.split_first() {
            let fault = self.over_package(alloc, pass, package)?;
            first = first.or(fault.map(|span| Place {
                package: number,
                span,
            }));
            number = number.checked_add(1).ok_or(OutOfMemory)?;
            rest = after;
        }
        Ok(first)
    }
}

/// The place of the first definition whose name is in its own scope already, in load and text order.
pub fn twice(alloc: Global, packages: &[Package]) -> Result<Option<Place>, OutOfMemory>
    ensures { IfOk result (λ r. r ≡ spec.first_twice packages.now) }
{
    let mut names = Names::given(alloc)?;
    names.over_packages(alloc, Pass::Twice, packages)
}

/// The names that are defined anywhere in the packages, beside those that the language gives.
fn known_anywhere(alloc: Global, packages: &[Package]) -> Result<Names, OutOfMemory>
    ensures { IfOk result (λ names. known names ≡ unknown_spec.known_anywhere packages.now) }
{
    let mut names = Names::given(alloc)?;
    let _again = names.over_packages(alloc, Pass::Twice, packages)?;
    names.variables = Scopes::new(alloc);
    Ok(names)
}

/// The place of the first use of a name that has no definition in scope, in load and text order. A
/// type, a label, a function and a module may be used before they are defined.
pub fn unknown(alloc: Global, packages: &[Package]) -> Result<Option<Place>, OutOfMemory>
    ensures { IfOk result (λ r. r ≡ spec.first_unknown packages.now) }
{
    let mut names = known_anywhere(alloc, packages)?;
    names.over_packages(alloc, Pass::Unknown, packages)
}
