ghost use Rattle.std.specs.Prelude.{◌≡◌, slice_get};
ghost use Rattle.bsv_fail.specs.Given.{Gives};
ghost use Rattle.bsv_types.specs.Kinds.{kind};
ghost use Rattle.bsv_tree.specs.carrying.Calls as calls;
ghost use Rattle.bsv_tree.specs.tree.Contexts as contexts;
ghost use Rattle.bsv_carry.specs.AtHand as spec;

use crate::carrier::Carrier;
use crate::integers::number_between;
use crate::operators::constant_of;
use bsv_bits::Operator;
use bsv_fail::Fail;
use bsv_tree::{Constant, Got, Local, Static, Value, Valued, Work, between, held, is_static};
use bsv_types::{Expr, Op, Ty};

/// An Integer that is written is less than this.
const MOST_WRITTEN: u128 = 9_223_372_036_854_775_808;

impl Carrier<'_> {
    #[tactic(auto, unfolding(bsv_tree::specs::carrying::Carrying::literal))]
    pub(crate) fn literal(self, ty: &Ty, number: u128, work: Work) -> Valued
        ensures { Gives result (spec.literal self.entry (kind ty.now) number work) }
    {
        match ty {
            Ty::Integer => {
                if number < MOST_WRITTEN {
                    Ok((Value::Static(Constant::Number(number as i64)), work))
                } else {
                    Err(Fail::Fault(self.static_fault()))
                }
            }
            ty => Ok((constant_of(self.width(ty), number), work)),
        }
    }

    /// The place of a variable among those of the body.
    pub(crate) fn place_in_body(self, level: u32) -> usize
        ensures { result ≡ contexts.place_in_body (spec.site self.entry) level }
    {
        (level as usize).saturating_sub(self.bindings.len()) + 1
    }

    fn in_body(self, locals: &[Local], at: usize) -> Got<Value>
        ensures { Gives result (calls.in_body (spec.fault_of self.entry)
            (slice_get locals.now at)) }
    {
        match locals.get(at) {
            None => Err(Fail::Fault(self.static_fault())),
            Some(local) => {
                if local.lost {
                    Err(Fail::Fault(self.static_fault()))
                } else {
                    Ok(local.value)
                }
            }
        }
    }

    /// A variable, of the module or of the body.
    #[tactic(auto, unfolding(bsv_tree::specs::carrying::Calls::variable))]
    pub(crate) fn variable(self, level: u32, locals: &[Local]) -> Got<Value>
        ensures { Gives result (spec.variable self.entry level locals.now) }
    {
        match self.bindings.get(level as usize) {
            None => self.in_body(locals, self.place_in_body(level)),
            Some(binding) => match held(&binding.value) {
                Some(value) => Ok(value),
                None => Err(Fail::Fault(self.static_fault())),
            },
        }
    }

    /// A value of the type. An Integer is static.
    pub(crate) fn settled(self, ty: &Ty, found: (Value, Work)) -> Valued
        ensures { Gives result (spec.settled self.entry (kind ty.now) found) }
    {
        match ty {
            Ty::Integer => {
                if is_static(&found.0) {
                    Ok(found)
                } else {
                    Err(Fail::Fault(self.static_fault()))
                }
            }
            _ => Ok(found),
        }
    }

    /// The type of the first operand.
    #[tactic(auto, using(crate::proofs::Sorts::sorts))]
    pub(crate) fn first_type<'b>(self, ty: &'b Ty, operands: &'b [Expr]) -> &'b Ty
        ensures { kind result.now ≡ spec.first_type self.entry (kind ty.now) operands.now }
    {
        match operands.split_first() {
            None => ty,
            Some((first, _)) => first.ty(),
        }
    }

    /// The instance of a variable.
    pub(crate) fn placed(self, level: u32) -> Got<u32>
        ensures { Gives result (spec.placed self.entry level) }
    {
        match self.bindings.get(level as usize) {
            None => Err(Fail::Fault(self.static_fault())),
            Some(binding) => match &binding.value {
                Static::Place(number) => Ok(*number),
                _ => Err(Fail::Fault(self.static_fault())),
            },
        }
    }

    /// An instance that was set.
    fn set_place(self, places: &[Option<u32>], at: usize) -> Got<u32>
        ensures { Gives result (calls.set_place (spec.fault_of self.entry)
            (slice_get places.now at)) }
    {
        match places.get(at) {
            None => Err(Fail::Fault(self.static_fault())),
            Some(place) => match place {
                Some(number) => Ok(*number),
                None => Err(Fail::Fault(self.static_fault())),
            },
        }
    }

    /// The instance at a place of an array.
    pub(crate) fn placed_at(self, level: u32, at: usize) -> Got<u32>
        ensures { Gives result (spec.placed_at self.entry level at) }
    {
        match self.bindings.get(level as usize) {
            None => Err(Fail::Fault(self.static_fault())),
            Some(binding) => match &binding.value {
                Static::Places(places) => self.set_place(places.as_slice(), at),
                _ => Err(Fail::Fault(self.static_fault())),
            },
        }
    }

    /// A place in an array.
    pub(crate) fn index_of(self, value: Value) -> Got<usize>
        ensures { Gives result (spec.index_of self.entry value) }
    {
        match value {
            Value::Static(Constant::Number(number)) => match u64::try_from(number) {
                Ok(at) => Ok(at as usize),
                Err(_) => Err(Fail::Fault(self.static_fault())),
            },
            _ => Err(Fail::Fault(self.static_fault())),
        }
    }

    /// Whether the subject is a label.
    pub(crate) fn same_as(self, subject: &Value, label: Value, work: Work) -> Valued
        ensures { Gives result (spec.same_as self.entry subject.now label work) }
    {
        match (*subject, label) {
            (Value::Static(Constant::Number(one)), Value::Static(Constant::Number(other))) => {
                match number_between(Op::Same, one, other) {
                    Some(constant) => Ok((Value::Static(constant), work)),
                    None => Err(Fail::Fault(self.static_fault())),
                }
            }
            (subject, label) => between(work, Operator::Same, subject, label),
        }
    }

    /// What a body returns after its statements.
    pub(crate) fn returned(self, locals: &[Local], work: Work) -> Valued
        ensures { Gives result (spec.returned self.entry (slice_get locals.now 0) work) }
    {
        match locals.get(0) {
            None => Err(Fail::Fault(self.static_fault())),
            Some(local) => {
                if local.lost {
                    Err(Fail::Fault(self.static_fault()))
                } else {
                    Ok((local.value, work))
                }
            }
        }
    }
}
