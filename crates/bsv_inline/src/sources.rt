ghost use Rattle.std.specs.Prelude.{◌≡◌, Some, None, slice_get, map, IfOk};
ghost use Rattle.std.specs.Option.{option_copied};
ghost use Rattle.bsv_types.specs.Kinds.{kind};
ghost use Rattle.bsv_tree.specs.tree.Widths as type_widths;
ghost use Rattle.bsv_tree.specs.tree.Elements as spec;
ghost use Rattle.bsv_tree.specs.carrying.Sources as the_carried;
ghost use Rattle.bsv_tree.specs.tree.Trees as trees;
ghost use Rattle.bsv_carry.specs.AtHand as carrier;
ghost use Rattle.bsv_inline.specs.SourcesAtHand as at_hand;

use crate::rules::{Placed, rule_at};
use bsv_bits::{Name, OutOfMemory};
use bsv_carry::Context;
use bsv_design::{Port, Role, path_of};
use bsv_tree::{
    Atom, Binding, Built, Count, Made, Source, Tree, Value, Valued, atom_of, no_steps, seen,
};
use bsv_types::{Method, MethodResult, Module, Param, Rule, Ty, counted_width};
use sqlite_items::Items;
use std::alloc::Global;

/// What is at hand where a tree is laid out.
#[derive(Clone, Copy)]
pub(crate) struct Sources<'a> {
    pub alloc: Global,
    pub tree: &'a Tree,
}

/// What a method of the top is.
fn role_of(given: &MethodResult) -> Role
    ensures { result ≡ spec.role_of given.now }
{
    match given {
        MethodResult::Value(_) => Role::Value,
        MethodResult::Action => Role::Action,
        MethodResult::ActionValue(_) => Role::ActionValue,
    }
}

/// The word that a method gives, where it gives one.
fn given_by(role: Role, value: Value) -> Option<Atom>
    ensures { result ≡ at_hand.given_by role value }
{
    if role.gives_value() {
        Some(atom_of(value))
    } else {
        None
    }
}

impl<'a> Sources<'a> {
    /// The bits of a type.
    #[tactic(auto, unfolding(bsv_tree::specs::tree::Widths::width))]
    fn width(self, ty: &Ty) -> u32
        ensures { result ≡ type_widths.width (at_hand.shapes self.entry) (kind ty.now) }
    {
        match counted_width(&self.tree.typed.enums, &self.tree.typed.structs, ty) {
            Some(width) => width,
            None => 1,
        }
    }

    /// The argument that a parameter is.
    fn port(self, param: &Param) -> Result<Port, OutOfMemory>
        ensures { IfOk result (λ port.
            port ≡ spec.port_of (at_hand.shapes self.entry) param.now) }
    {
        let name = Name::new(self.alloc, param.name.bytes())?;
        let width = self.width(&param.ty);
        Ok(Port { name, width })
    }

    /// The arguments of a method.
    fn ports(self, params: &[Param]) -> Result<Items<Port>, OutOfMemory>
        ensures { IfOk result (λ ports.
            ports ≡ map (spec.port_of (at_hand.shapes self.entry)) params.now) }
    {
        let mut ports = Items::new(self.alloc);
        let mut rest = params;
        while let Some((param, after)) = rest.split_first() {
            ports.push(self.port(param)?)?;
            rest = after;
        }
        Ok(ports)
    }

    /// What is at hand where the text of a module of the tree is carried out.
    fn site(self, place: u32, bindings: &'a [Binding]) -> Context<'a>
        ensures { carrier.text result
            ≡ at_hand.site self.entry place bindings.now }
    {
        Context {
            alloc: self.alloc,
            typed: &self.tree.typed,
            instances: self.tree.instances.as_slice(),
            module: place,
            bindings,
        }
    }

    /// The module of a place.
    fn module(self, place: u32) -> Option<&'a Module>
        ensures { option_copied result ≡ slice_get (at_hand.tree self.entry).typed.modules place }
    {
        self.tree.typed.modules.get(place as usize)
    }

    /// The methods of the top.
    pub(crate) fn top_methods(self) -> &'a [Method]
        ensures { result.now ≡ spec.top_methods (at_hand.tree self.entry) }
    {
        match self.module(self.tree.top) {
            Some(module) => module.methods.as_slice(),
            None => &[],
        }
    }

    /// A method of the top that was carried out.
    fn method_done(self, method: &Method, done: Valued) -> Result<Source, OutOfMemory>
        ensures { IfOk result (λ source.
            at_hand.method_done self.entry method.now done ≡ Some source) }
    {
        let Ok((value, work)) = done else {
            return Err(OutOfMemory);
        };
        let role = role_of(&method.result);
        let ports = self.ports(method.params.as_slice())?;
        let name = Name::new(self.alloc, method.name.bytes())?;
        Ok(Source {
            name,
            role,
            ports,
            steps: work.steps,
            gives: given_by(role, value),
        })
    }

    /// A method of the top, by its number in the interface.
    fn method_source(self, built: &'a Built, number: u32) -> Result<Source, OutOfMemory>
        ensures { IfOk result (λ source.
            at_hand.method_source self.entry built.now number ≡ Some source) }
    {
        let Some(levels) = built.methods.get(number as usize) else {
            return Err(OutOfMemory);
        };
        let Some(method) = self.top_methods().get(number as usize) else {
            return Err(OutOfMemory);
        };
        let bindings = seen(built.bindings.as_slice(), *levels as usize);
        let done = self.site(built.module, bindings).top_method(method, 0);
        self.method_done(method, done)
    }

    /// The text of a rule.
    fn rule_text(self, placed: Placed<'a>) -> Option<&'a Rule>
        ensures { option_copied result ≡ at_hand.rule_text self.entry placed.entry }
    {
        match self.module(placed.built.module) {
            Some(module) => module.rules.get(placed.rule.rule as usize),
            None => None,
        }
    }

    /// A rule.
    fn rule_source(self, placed: Placed<'a>) -> Result<Source, OutOfMemory>
        ensures { IfOk result (λ source.
            the_carried.rule_source (at_hand.tree self.entry) (Some (at_hand.standing placed.entry))
            ≡ Some source) }
    {
        let Some(rule) = self.rule_text(placed) else {
            return Err(OutOfMemory);
        };
        let count = Count {
            weight: 0,
            slots: 0,
        };
        let site = self.site(placed.built.module, placed.rule.bindings.as_slice());
        let work = no_steps(self.alloc, count);
        let Ok(work) = site.rule(&rule.condition, rule.body.as_slice(), work) else {
            return Err(OutOfMemory);
        };
        let name = path_of(self.alloc, placed.path.bytes(), placed.rule.name.bytes())?;
        Ok(Source {
            name,
            role: Role::Rule,
            ports: Items::new(self.alloc),
            steps: work.steps,
            gives: None,
        })
    }

    /// The top, as an instance.
    fn top(self) -> Option<&'a Built>
        ensures { at_hand.top self.entry ≡ option_copied result }
    {
        match self.tree.instances.get(0) {
            Some(instance) => match &instance.made {
                Made::Module(built) => Some(built),
                Made::Primitive(_, _) => None,
            },
            None => None,
        }
    }

    /// The method of the top of a position.
    fn top_source(self, position: u32) -> Result<Source, OutOfMemory>
        ensures { IfOk result (λ source.
            at_hand.top_source self.entry position ≡ Some source) }
    {
        match self.top() {
            Some(built) => self.method_source(built, position),
            None => Err(OutOfMemory),
        }
    }

    /// The element of a position.
    #[tactic(auto, unfolding(bsv_tree::specs::carrying::Sources::source_at))]
    pub(crate) fn source(self, position: u32) -> Result<Source, OutOfMemory>
        ensures { IfOk result (λ source.
            the_carried.source_at (at_hand.tree self.entry) position ≡ Some source) }
    {
        if (position as usize) < self.top_methods().len() {
            return self.top_source(position);
        }
        match rule_at(self.tree.instances.as_slice(), position) {
            Some(placed) => self.rule_source(placed),
            None => Err(OutOfMemory),
        }
    }
}
