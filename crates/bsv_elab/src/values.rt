ghost use Rattle.std.specs.Prelude.{◌≡◌};
ghost use Rattle.bsv_fail.specs.Given.{Gives};
ghost use Rattle.bsv_carry.specs.AtHand as carrier;
ghost use Rattle.bsv_elab.specs.AtHand as spec;
ghost use Rattle.bsv_elab.specs.Becoming.{Becomes, GivesInto};
ghost use Rattle.bsv_elab.specs.Statics as statics;

use crate::builder::Builder;
use crate::refused::{Building, Refused, from_carry};
use crate::state::State;
use bsv_carry::Context;
use bsv_fail::Fail;
use bsv_tree::{Constant, Count, Fault, Value, Work, no_steps, no_variables, tick};
use bsv_types::Expr;

/// The greatest number that is a place in a list.
const MOST_COUNTABLE: usize = 4_294_967_295;

/// A number of things, of which each weighs, so that there are never too many.
#[tactic(auto, unfolding(crate::specs::Statics::countable))]
pub(crate) fn countable(number: usize) -> Building<u32>
    ensures { Gives result (statics.countable number) }
{
    if number > MOST_COUNTABLE {
        return Err(Fail::Fault(Refused::Carried(Fault::Weight)));
    }
    Ok(number as u32)
}

/// The state, where so much weighs what was carried out.
pub(crate) fn set_weight(weight: u64, state: &mut State)
    ensures { state.new ≡ statics.at_weight weight state.old }
{
    state.grown.weight = weight;
}

pub(crate) fn count(state: &State) -> Count
    ensures { result ≡ statics.count state.now }
{
    Count {
        weight: state.grown.weight,
        slots: 0,
    }
}

/// So much weight more.
#[tactic(auto, unfolding(crate::specs::Statics::weigh))]
pub(crate) fn weigh(more: usize, state: &mut State) -> Building<()>
    ensures { Becomes result state.new (statics.weigh more state.old) }
{
    let count = tick(count(state), more).map_err(from_carry)?;
    set_weight(count.weight, state);
    Ok(())
}

impl<'a> Builder<'a> {
    /// What must be static is not, or a number leaves its range.
    pub(crate) fn static_fault(self) -> Refused
        ensures { result ≡ statics.static_fault (spec.here self.entry) }
    {
        Refused::Carried(Fault::Static(self.module))
    }

    /// What is at hand where text of the body is carried out.
    pub(crate) fn site<'b>(self, state: &'b State) -> Context<'b>
    where
        'a: 'b,
        ensures { carrier.text result ≡ statics.site (spec.here self.entry) state.now }
    {
        Context {
            alloc: self.alloc,
            typed: self.typed,
            instances: state.grown.instances.as_slice(),
            module: self.module,
            bindings: state.scope.bindings.as_slice(),
        }
    }

    /// What carrying out the expression gives.
    fn carried(self, e: &Expr, state: &State) -> Building<(Value, Work)>
        ensures { Gives result (statics.carried_in (spec.here self.entry) e.now state.now) }
    {
        let locals = no_variables(self.alloc, false)?;
        let work = no_steps(self.alloc, count(state));
        let found = self.site(state).expr(e, locals.as_slice(), work);
        found.map_err(from_carry)
    }

    /// An expression, which has to be static.
    #[tactic(auto, unfolding(crate::specs::Statics::constant_in))]
    pub(crate) fn constant(self, e: &Expr, state: &mut State) -> Building<Constant>
        ensures { GivesInto result state.new
            (statics.constant_in (spec.here self.entry) e.now state.old) }
    {
        let (value, work) = self.carried(e, state)?;
        match value {
            Value::Static(constant) => {
                set_weight(work.count.weight, state);
                Ok(constant)
            }
            Value::Open(_) => Err(Fail::Fault(self.static_fault())),
        }
    }

    /// An Integer.
    #[tactic(auto, unfolding(crate::specs::Statics::number_in))]
    pub(crate) fn number(self, e: &Expr, state: &mut State) -> Building<i64>
        ensures { GivesInto result state.new
            (statics.number_in (spec.here self.entry) e.now state.old) }
    {
        let constant = self.constant(e, state)?;
        match constant {
            Constant::Number(number) => Ok(number),
            Constant::Bits(_) => Err(Fail::Fault(self.static_fault())),
        }
    }

    /// A condition.
    #[tactic(auto, unfolding(crate::specs::Statics::truth_in))]
    pub(crate) fn truth(self, e: &Expr, state: &mut State) -> Building<bool>
        ensures { GivesInto result state.new
            (statics.truth_in (spec.here self.entry) e.now state.old) }
    {
        let constant = self.constant(e, state)?;
        match constant {
            Constant::Number(_) => Err(Fail::Fault(self.static_fault())),
            Constant::Bits(word) => Ok(word.value() == 1),
        }
    }
}
