ghost use Rattle.std.specs.Prelude.{◌≡◌};
ghost use Rattle.bsv_types.specs.Kinds.{kind};
ghost use Rattle.bsv_types.specs.Methods as table;
ghost use Rattle.bsv_context.specs.Seen.{Gives, shown};
ghost use Rattle.bsv_statements.specs.SeenBodies.{GivesAt};
ghost use Rattle.bsv_modules.specs.Modules as spec;
ghost use Rattle.bsv_modules.specs.Seen.{header, kinds, module_named, site_of};

use crate::site::{Header, ModuleContext};
use bsv_ast::{Expr, Make as WrittenMake, Span};
use bsv_context::{Fail, Variable, is_interface};
use bsv_scopes::Scopes;
use bsv_statements::{BodyFail, at};
use bsv_types::{Argument, GivenMaker, Items, Make, Maker, Place, Ty};
use bsv_typing::{handed_instance, typing};
use std::alloc::Global;
use std::slice;

/// An argument of this type: a value, or an instance that is in no brackets.
fn handed(
    alloc: Global,
    site: &ModuleContext<'_>,
    scopes: &Scopes<Variable>,
    expr: &Expr,
    ty: &Ty,
) -> Result<Argument, Fail>
    ensures { Gives (λ x. x) result (spec.handed (site_of site.now) (shown scopes.now) expr.now
        (kind ty.now)) }
{
    if !is_interface(ty) {
        let typed = typing(alloc, site.context, scopes, expr, Some(ty))?;
        return Ok(Argument::Value(typed.expr));
    }
    let instance = handed_instance(alloc, site.context, scopes, expr)?;
    if instance.ty.same(ty) {
        Ok(Argument::Instance(Place {
            level: instance.level,
            index: instance.index,
        }))
    } else {
        Err(Fail::Fault)
    }
}

/// Arguments of these types, and no others.
#[tactic(auto, using(crate::proofs::Gathered::handing))]
fn all_handed(
    alloc: Global,
    site: &ModuleContext<'_>,
    scopes: &Scopes<Variable>,
    exprs: &[Expr],
    types: &[Ty],
) -> Result<Items<Argument>, Fail>
    ensures { Gives (λ xs. xs) result (spec.all_handed (site_of site.now)
        (shown scopes.now) exprs.now (kinds types.now)) }
{
    let mut found = Items::new(alloc);
    let mut rest = exprs;
    let mut left = types;
    while let Some((expr, after)) = rest.split_first() {
        let Some((ty, more)) = left.split_first() else {
            return Err(Fail::Fault);
        };
        let argument = handed(alloc, site, scopes, expr, ty)?;
        found.push(argument)?;
        rest = after;
        left = more;
    }
    if left.is_empty() {
        Ok(found)
    } else {
        Err(Fail::Fault)
    }
}

/// The arguments of a maker of an interface over the type.
fn given_over(
    alloc: Global,
    site: &ModuleContext<'_>,
    scopes: &Scopes<Variable>,
    maker: GivenMaker,
    exprs: &[Expr],
    ty: &Ty,
) -> Result<Items<Argument>, Fail>
    ensures { Gives (λ xs. xs) result (spec.all_handed (site_of site.now)
        (shown scopes.now) exprs.now (table.maker_params maker (kind ty.now))) }
{
    match maker {
        GivenMaker::Reg | GivenMaker::DWire => {
            all_handed(alloc, site, scopes, exprs, slice::from_ref(ty))
        }
        GivenMaker::SizedFifo | GivenMaker::SizedFifof => {
            all_handed(alloc, site, scopes, exprs, slice::from_ref(&Ty::Integer))
        }
        _ => all_handed(alloc, site, scopes, exprs, &[]),
    }
}

/// What the maker that the language gives makes an instance of this interface from.
fn given_arguments(
    alloc: Global,
    site: &ModuleContext<'_>,
    scopes: &Scopes<Variable>,
    maker: GivenMaker,
    exprs: &[Expr],
    ty: &Ty,
) -> Result<Items<Argument>, Fail>
    ensures { Gives (λ xs. xs) result (spec.given_arguments (site_of site.now)
        (shown scopes.now) maker exprs.now (kind ty.now)) }
{
    match ty {
        Ty::Part(part, Some(held)) if *part == maker.part() => {
            given_over(alloc, site, scopes, maker, exprs, held.get())
        }
        Ty::Part(part, None) if *part == maker.part() => {
            all_handed(alloc, site, scopes, exprs, &[])
        }
        _ => Err(Fail::Fault),
    }
}

/// What the module makes an instance of this interface from.
fn module_arguments(
    alloc: Global,
    site: &ModuleContext<'_>,
    scopes: &Scopes<Variable>,
    instantiated: &Header,
    exprs: &[Expr],
    ty: &Ty,
) -> Result<Items<Argument>, Fail>
    ensures { Gives (λ xs. xs) result (spec.module_arguments (site_of site.now) (shown scopes.now)
        (header instantiated.now) exprs.now (kind ty.now)) }
{
    if instantiated.interface.same(ty) {
        all_handed(alloc, site, scopes, exprs, instantiated.params.as_slice())
    } else {
        Err(Fail::Fault)
    }
}

/// The module of the name makes an instance of this interface.
#[tactic(auto, using(crate::proofs::Names::headers))]
fn module_make(
    alloc: Global,
    site: &ModuleContext<'_>,
    scopes: &Scopes<Variable>,
    make: &WrittenMake,
    ty: &Ty,
) -> Result<Make, Fail>
    ensures { Gives (λ x. x) result (spec.module_make (site_of site.now) (shown scopes.now)
        (module_named site.now.modules.now make.now.maker.name) make.now.arguments (kind ty.now)) }
{
    let Some(module) = site.modules.find(&make.maker.name) else {
        return Err(Fail::Fault);
    };
    let exprs = make.arguments.as_slice();
    let arguments = module_arguments(alloc, site, scopes, module, exprs, ty)?;
    Ok(Make {
        maker: Maker::Module(module.number),
        arguments,
    })
}

/// What makes an instance of this interface.
pub(crate) fn make(
    alloc: Global,
    site: &ModuleContext<'_>,
    scopes: &Scopes<Variable>,
    span: Span,
    written: &WrittenMake,
    ty: &Ty,
) -> Result<Make, BodyFail>
    ensures { GivesAt (λ x. x) result (spec.make_at (site_of site.now)
        (shown scopes.now) span written.now (kind ty.now)) }
{
    let Some(maker) = GivenMaker::named(written.maker.name.bytes()) else {
        return at(span, module_make(alloc, site, scopes, written, ty));
    };
    let exprs = written.arguments.as_slice();
    let arguments = at(span, given_arguments(alloc, site, scopes, maker, exprs, ty))?;
    Ok(Make {
        maker: Maker::Given(maker),
        arguments,
    })
}
