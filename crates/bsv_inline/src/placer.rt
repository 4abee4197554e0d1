ghost use Rattle.std.specs.Prelude.{◌≡◌, IfOk, map};
ghost use Rattle.bsv_inline.specs.Placed as placed;
ghost use Rattle.bsv_inline.specs.Placed.{ArePartNumbers};

use crate::naming::name_of;
use crate::parts::part_of;
use bsv_bits::{Name, OutOfMemory};
use bsv_body::{Body, Call, Condition, Laid};
use bsv_design as design;
use bsv_design::{Element, NamedPart, Port, Role};
use bsv_prim::Primitive;
use bsv_tree::Instance;
use bsv_types::Module;
use sqlite_items::Items;
use std::alloc::Global;

/// What each call has at hand: the modules and the instances of a tree.
#[derive(Clone, Copy)]
pub struct Placer<'a> {
    pub alloc: Global,
    pub modules: &'a [Module],
    pub instances: &'a [Instance],
    /// Of each instance, how many primitives come before it, and at the end how many there are.
    pub numbers: &'a [u32],
}

/// What a body asks, as an element of a design does.
#[derive(Drop)]
struct Asked {
    calls: Items<design::Call>,
    conditions: Items<design::Condition>,
}

impl Placer<'_> {
    /// The call, of a method of a part.
    fn call(self, call: &Call) -> Laid<design::Call>
        requires { ArePartNumbers self.instances.now self.numbers.now }
        ensures { IfOk result
            (λ own. own ≡ placed.placed_call self.entry.instances.now call.now) }
    {
        Ok(design::Call {
            part: part_of(self.instances, self.numbers, call.method.instance),
            method: call.method.method,
            taken: call.taken,
            branches: Items::from_slice(self.alloc, call.branches.as_slice())?,
            args: Items::from_slice(self.alloc, call.arguments.as_slice())?,
        })
    }

    /// The calls, of methods of parts.
    fn calls(self, calls: &[Call]) -> Laid<Items<design::Call>>
        requires { ArePartNumbers self.instances.now self.numbers.now }
        ensures { IfOk result
            (λ own. own ≡ map (placed.placed_call self.entry.instances.now) calls.now) }
    {
        let mut own = Items::new(self.alloc);
        let mut rest = calls;
        while let Some((call, after)) = rest.split_first() {
            own.push(self.call(call)?)?;
            rest = after;
        }
        Ok(own)
    }

    /// The condition, with its name.
    fn condition(self, condition: &Condition) -> Laid<design::Condition>
        ensures { IfOk result (λ own. own ≡ placed.named_condition
            self.entry.modules.now self.entry.instances.now condition.now) }
    {
        let implicit = match condition.name {
            Some(place) => Some(name_of(self.alloc, self.modules, self.instances, place)?),
            None => None,
        };
        Ok(design::Condition {
            truth: condition.truth,
            taken: condition.taken,
            implicit,
        })
    }

    /// The conditions, with their names.
    fn conditions(self, conditions: &[Condition]) -> Laid<Items<design::Condition>>
        ensures { IfOk result (λ own. own ≡ map (placed.named_condition
            self.entry.modules.now self.entry.instances.now) conditions.now) }
    {
        let mut own = Items::new(self.alloc);
        let mut rest = conditions;
        while let Some((condition, after)) = rest.split_first() {
            own.push(self.condition(condition)?)?;
            rest = after;
        }
        Ok(own)
    }

    /// Whether the method is one of its part, and acts where the call does.
    fn fits(self, parts: &[NamedPart], call: &Call) -> bool
        requires { ArePartNumbers self.instances.now self.numbers.now }
        ensures { result ≡ placed.call_fits
            (map (λ p. p.kind) parts.now) self.entry.instances.now call.now }
    {
        let part = part_of(self.instances, self.numbers, call.method.instance);
        let method = call.method.method;
        match parts.get(part as usize) {
            Some(part) => {
                method < part.kind.methods() && part.kind.is_action(method) == call.action
            }
            None => false,
        }
    }

    /// Whether the method of each call is one of its part, and acts where the call does.
    pub fn all_fit(self, parts: &[NamedPart], calls: &[Call]) -> bool
        requires { ArePartNumbers self.instances.now self.numbers.now }
        ensures { result ≡ placed.all_fit
            (map (λ p. p.kind) parts.now) self.entry.instances.now calls.now }
    {
        let mut rest = calls;
        while let Some((call, after)) = rest.split_first() {
            if !self.fits(parts, call) {
                return false;
            }
            rest = after;
        }
        true
    }

    /// The calls and the conditions of a body as those of an element.
    fn asked(self, body: &Body) -> Laid<Asked>
        requires { ArePartNumbers self.instances.now self.numbers.now }
        ensures calls { IfOk result (λ asked. asked.calls
            ≡ map (placed.placed_call self.entry.instances.now) body.now.calls) }
        ensures conditions { IfOk result (λ asked. asked.conditions ≡ map (placed.named_condition
            self.entry.modules.now self.entry.instances.now) body.now.conditions) }
    {
        let calls = self.calls(body.calls.as_slice())?;
        let conditions = self.conditions(body.conditions.as_slice())?;
        Ok(Asked { calls, conditions })
    }

    /// The element of this body.
    pub fn element(
        self,
        name: Name,
        role: Role,
        arguments: Items<Port>,
        body: Body,
    ) -> Result<Element, OutOfMemory>
        requires { ArePartNumbers self.instances.now self.numbers.now }
        ensures { IfOk result (λ e. e ≡ placed.element
            self.entry.modules.now self.entry.instances.now name role arguments body) }
    {
        let asked = self.asked(&body)?;
        Ok(Element {
            name,
            role,
            arguments,
            conditions: asked.conditions,
            calls: asked.calls,
            nodes: body.nodes,
            result: body.result,
        })
    }
}
