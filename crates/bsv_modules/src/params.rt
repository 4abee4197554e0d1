ghost use Rattle.std.specs.Prelude.{◌≡◌};
ghost use Rattle.bsv_types.specs.Kinds.{kind};
ghost use Rattle.bsv_statements.specs.Bodies.{at};
ghost use Rattle.bsv_context.specs.Seen.{shown, type_names};
ghost use Rattle.bsv_statements.specs.SeenBodies.{GivesAt};
ghost use Rattle.bsv_modules.specs.Modules as spec;
ghost use Rattle.bsv_modules.specs.Seen.{allowed};

use bsv_ast::{Param as WrittenParam, Span};
use bsv_bits::Name;
use bsv_context::{Context, Slot, Variable, is_interface, written_type};
use bsv_scopes::Scopes;
use bsv_statements::{BodyFail, at, declare};
use bsv_types::{Items, Param, Ty};
use std::alloc::Global;

/// Which types parameters may have.
#[derive(Clone, Copy, Debug, PartialEq, Eq)]
pub(crate) enum Allowed {
    /// Any type.
    Any,
    /// A type with bits.
    Bits,
    /// A type of values: one with bits, or Integer.
    Values,
    /// A type of values, or an interface.
    ValuesAndInterfaces,
}

impl Allowed {
    /// Whether a parameter may have the type.
    fn takes(self, context: &Context, ty: &Ty) -> bool
        ensures { result ≡ allowed self context.now (kind ty.now) }
    {
        match self {
            Allowed::Any => true,
            Allowed::Bits => context.has_bits(ty),
            Allowed::Values => context.is_typed_value(ty),
            Allowed::ValuesAndInterfaces => context.is_typed_value(ty) || is_interface(ty),
        }
    }
}

/// A parameter.
#[tactic(auto, using(bsv_context::proofs::TypesBack::types_back))]
fn param(
    alloc: Global,
    context: &Context,
    span: Span,
    written: &WrittenParam,
    which: Allowed,
) -> Result<Param, BodyFail>
    ensures { GivesAt (λ p. p) result (spec.param_at (type_names context.now)
        (allowed which context.now) span written.now) }
{
    let ty = at(span, written_type(alloc, context, &written.written))?;
    if !which.takes(context, &ty) {
        return Err(BodyFail::At(span));
    }
    let name = Name::new(alloc, written.name.name.bytes())?;
    Ok(Param { name, ty })
}

/// Parameters, of types that are allowed.
#[tactic(auto, using(bsv_statements::proofs::Fronts::lists))]
pub(crate) fn params(
    alloc: Global,
    context: &Context,
    span: Span,
    written: &[WrittenParam],
    which: Allowed,
) -> Result<Items<Param>, BodyFail>
    ensures { GivesAt (λ ps. ps) result (spec.params_at (type_names context.now)
        (allowed which context.now) span written.now) }
{
    let mut found = Items::new(alloc);
    let mut rest = written;
    while let Some((next, after)) = rest.split_first() {
        let typed = param(alloc, context, span, next, which)?;
        found.push(typed)?;
        rest = after;
    }
    Ok(found)
}

/// Parameters as variables of the innermost scope.
#[tactic(auto, using(crate::proofs::Placed::places))]
pub fn declare_params(
    alloc: Global,
    span: Span,
    scopes: &mut Scopes<Variable>,
    params: &[Param],
) -> Result<(), BodyFail>
    ensures { GivesAt (λ done. shown scopes.new) result
        (at span (spec.with_params params.now (shown scopes.old))) }
{
    let mut rest = params;
    while let Some((next, after)) = rest.split_first() {
        let ty = next.ty.copy(alloc)?;
        declare(alloc, span, scopes, &next.name, Slot::One(ty))?;
        rest = after;
    }
    Ok(())
}
