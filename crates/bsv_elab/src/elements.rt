ghost use Rattle.std.specs.Prelude.{◌≡◌, ◌<◌, IfOk, OnOk, Some, slice_get};
ghost use Rattle.std.specs.Option.{option_copied};
ghost use Rattle.bsv_fail.specs.Given.{Gives};
ghost use Rattle.bsv_elab.specs.AtHand as at_hand;
ghost use Rattle.bsv_elab.specs.Becoming.{Becomes, GivesInto};
ghost use Rattle.bsv_elab.specs.Elements as spec;

use crate::builder::Builder;
use crate::refused::{Building, LimitKind, Refused, from_carry};
use crate::state::State;
use crate::values::{count, countable};
use crate::variables::put_at;
use bsv_bits::{Name, OutOfMemory};
use bsv_fail::Fail;
use bsv_tree::{Binding, BuiltRule, Static, no_steps};
use bsv_types::{Method, Module, Rule};
use sqlite_items::Items;
use std::alloc::{AllocError, Global};

/// The most elements of a design.
pub(crate) const MOST_ELEMENTS: u32 = 512;

/// An equal value of a variable.
pub(crate) fn copied_static(alloc: Global, value: &Static) -> Result<Static, AllocError>
    ensures { IfOk result (λ found. found ≡ value.now) }
{
    Ok(match value {
        Static::Number(number) => Static::Number(*number),
        Static::Bits(word) => Static::Bits(*word),
        Static::Truth(truth) => Static::Truth(*truth),
        Static::Place(number) => Static::Place(*number),
        Static::Places(places) => Static::Places(Items::from_slice(alloc, places.as_slice())?),
    })
}

/// Equal variables.
fn copied(alloc: Global, bindings: &[Binding]) -> Result<Items<Binding>, OutOfMemory>
    ensures { IfOk result (λ found. found ≡ bindings.now) }
{
    let mut found = Items::new(alloc);
    for binding in bindings {
        let name = Name::new(alloc, binding.name.bytes())?;
        let value = copied_static(alloc, &binding.value)?;
        found.push(Binding { name, value })?;
    }
    Ok(found)
}

/// The rule of this name, place and position comes after the others.
fn add_rule(
    alloc: Global,
    name: Name,
    number: u32,
    position: u32,
    weight: u64,
    state: &mut State,
) -> Result<(), OutOfMemory>
    requires { state.old.grown.rules < 512 }
    ensures { OnOk result
        (state.new ≡ spec.with_rule name number position weight state.old) }
{
    let bindings = copied(alloc, state.scope.bindings.as_slice())?;
    state.scope.rules.push(BuiltRule {
        name,
        rule: number,
        position,
        bindings,
    })?;
    state.grown.rules += 1;
    state.grown.weight = weight;
    Ok(())
}

/// The method of this number sees so many variables.
fn set_level(number: usize, level: u32, state: &mut State)
    ensures { state.new ≡ spec.with_level number level state.old }
{
    put_at(number, level, &mut state.scope.levels);
}

impl<'a> Builder<'a> {
    /// The module whose body is carried out.
    pub(crate) fn here_module(self) -> Option<&'a Module>
        ensures { option_copied result ≡ spec.here_module (at_hand.here self.entry) }
    {
        self.typed.modules.get(self.module as usize)
    }

    fn rule_at(self, number: u32) -> Option<&'a Rule>
        ensures { option_copied result
            ≡ slice_get (spec.rules_of (spec.here_module (at_hand.here self.entry))) number }
    {
        match self.here_module() {
            Some(module) => module.rules.get(number as usize),
            None => None,
        }
    }

    fn method_at(self, number: u32) -> Option<&'a Method>
        ensures { option_copied result
            ≡ slice_get (spec.methods_of (spec.here_module (at_hand.here self.entry))) number }
    {
        match self.here_module() {
            Some(module) => module.methods.get(number as usize),
            None => None,
        }
    }

    /// The name of the next rule of the name.
    #[tactic(auto, unfolding(crate::specs::Elements::named_rule))]
    fn named_rule(self, name: &[u8], state: &mut State) -> Building<Name>
        ensures { GivesInto result state.new
            (spec.named_rule (at_hand.here self.entry) name.now state.old) }
    {
        let own = state.scope.elements.next(self.alloc, self.path, name)?;
        Ok(own)
    }

    /// The weight after what the rule carries out.
    fn weight_of(self, rule: &Rule, state: &State) -> Building<u64>
        ensures { Gives result (spec.weight_of (at_hand.here self.entry) rule.now state.now) }
    {
        let work = no_steps(self.alloc, count(state));
        let found = self
            .site(state)
            .rule(&rule.condition, rule.body.as_slice(), work);
        let work = found.map_err(from_carry)?;
        Ok(work.count.weight)
    }

    /// A rule of this name, carried out.
    fn rule_in(self, number: u32, name: Name, rule: &Rule, state: &mut State) -> Building<()>
        requires { state.old.grown.rules < 512 }
        ensures { Becomes result state.new
            (spec.rule_in (at_hand.here self.entry) number name rule.now state.old) }
    {
        let weight = self.weight_of(rule, state)?;
        let position = self.first + state.grown.rules;
        add_rule(self.alloc, name, number, position, weight, state)?;
        Ok(())
    }

    /// A rule where it stands.
    #[tactic(auto, unfolding(crate::specs::Elements::most_elements))]
    fn rule_from(self, number: u32, rule: &Rule, state: &mut State) -> Building<()>
        ensures { Becomes result state.new
            (spec.rule_from (at_hand.here self.entry) number (Some rule.now) state.old) }
    {
        let name = self.named_rule(rule.name.bytes(), state)?;
        if state.grown.rules >= MOST_ELEMENTS {
            let most = u64::from(MOST_ELEMENTS);
            return Err(Fail::Fault(Refused::Limit(LimitKind::Elements, most)));
        }
        self.rule_in(number, name, rule, state)
    }

    /// The rule of a place, where it stands.
    #[tactic(auto, unfolding(crate::specs::Elements::rule))]
    pub(crate) fn rule(self, number: u32, state: &mut State) -> Building<()>
        ensures { Becomes result state.new
            (spec.rule (at_hand.here self.entry) number state.old) }
    {
        match self.rule_at(number) {
            Some(rule) => self.rule_from(number, rule, state),
            None => Err(Fail::Fault(self.static_fault())),
        }
    }

    /// A method where it stands.
    fn method_from(self, number: u32, method: &Method, state: &mut State) -> Building<()>
        ensures { Becomes result state.new
            (spec.method_from (at_hand.here self.entry) number (Some method.now) state.old) }
    {
        let name = method.name.bytes();
        state.scope.elements.take(self.alloc, self.path, name)?;
        let level = countable(state.scope.bindings.len())?;
        set_level(number as usize, level, state);
        Ok(())
    }

    /// The method of a place, where it stands.
    #[tactic(auto, unfolding(crate::specs::Elements::method))]
    pub(crate) fn method(self, number: u32, state: &mut State) -> Building<()>
        ensures { Becomes result state.new
            (spec.method (at_hand.here self.entry) number state.old) }
    {
        match self.method_at(number) {
            Some(method) => self.method_from(number, method, state),
            None => Err(Fail::Fault(self.static_fault())),
        }
    }
}
