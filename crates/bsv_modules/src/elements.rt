ghost use Rattle.std.specs.Prelude.{◌≡◌, ◌<◌, IfOk, IsTrue, Ok, Some, length, slice_set, vec_len};
ghost use Rattle.bsv_scopes.specs.Scopes.{in_scope};
ghost use Rattle.bsv_types.specs.Kinds.{kind};
ghost use Rattle.bsv_types.specs.Methods.{effect};
ghost use Rattle.bsv_context.specs.Seen.{method_of, shown, type_names};
ghost use Rattle.bsv_statements.specs.SeenBodies.{GivesAt, fixed, task_of};
ghost use Rattle.bsv_modules.specs.Modules as spec;
ghost use Rattle.bsv_modules.specs.Seen.{method_header_of, site_of, state_of};

use crate::attributes::asked;
use crate::named::params_named;
use crate::params::{Allowed, declare_params, params};
use crate::site::{ModuleContext, State};
use bsv_ast::{
    Body as WrittenBody, Expr, Method as WrittenMethod, Rule as WrittenRule, Span, Stmt,
};
use bsv_bits::Name;
use bsv_context::{Context, FoundMethod, Variable, is_lower, method_named, written_effect};
use bsv_scopes::Scopes;
use bsv_statements::{BodyFail, Task, at, of_type, returns, statements};
use bsv_types::{
    Body, Boxed, Expr as Typed, Items, Method, MethodResult, ModuleStmt, Owner, Param, Rule,
    Stmt as TypedStmt, Ty,
};
use bsv_typing::place_number;
use std::alloc::Global;
use std::mem::replace;

/// A body that gives a value of the type.
fn value_body(
    alloc: Global,
    task: &Task<'_>,
    scopes: &mut Scopes<Variable>,
    span: Span,
    ty: &Ty,
    body: &WrittenBody,
) -> Result<Body, BodyFail>
    ensures { GivesAt (λ b. (shown scopes.new, b)) result
        (spec.value_body (task_of task.now) span (shown scopes.old) (kind ty.now) body.now) }
{
    match body {
        WrittenBody::Statements(_, written) => {
            if !returns(written.as_slice()) {
                return Err(BodyFail::At(span));
            }
            let typed = statements(alloc, task, scopes, written.as_slice())?;
            Ok(Body::Statements(typed))
        }
        WrittenBody::Value(_, value) => {
            let typed = of_type(alloc, task, scopes, span, value, ty)?;
            Ok(Body::Value(typed))
        }
    }
}

/// A body that only acts.
fn action_body(
    alloc: Global,
    task: &Task<'_>,
    scopes: &mut Scopes<Variable>,
    span: Span,
    body: &WrittenBody,
) -> Result<Body, BodyFail>
    ensures { GivesAt (λ b. (shown scopes.new, b)) result
        (spec.action_body (task_of task.now) span (shown scopes.old) body.now) }
{
    match body {
        WrittenBody::Statements(_, written) => {
            let typed = statements(alloc, task, scopes, written.as_slice())?;
            Ok(Body::Statements(typed))
        }
        WrittenBody::Value(_, _) => Err(BodyFail::At(span)),
    }
}

/// A body with this effect, whose variables begin at this level.
pub(crate) fn body(
    alloc: Global,
    context: &Context,
    scopes: &mut Scopes<Variable>,
    span: Span,
    base: u32,
    does: &MethodResult,
    written: &WrittenBody,
) -> Result<Body, BodyFail>
    ensures { GivesAt (λ b. (shown scopes.new, b)) result
        (spec.body_of (fixed context.now) (type_names context.now) span base (shown scopes.old)
        (effect does.now) written.now) }
{
    let task = match does {
        MethodResult::Value(ty) => {
            let task = Task {
                context,
                acts: false,
                result: Some(ty),
                base,
            };
            return value_body(alloc, &task, scopes, span, ty, written);
        }
        MethodResult::Action => Task {
            context,
            acts: true,
            result: None,
            base,
        },
        MethodResult::ActionValue(ty) => {
            let task = Task {
                context,
                acts: true,
                result: Some(ty),
                base,
            };
            return value_body(alloc, &task, scopes, span, ty, written);
        }
    };
    action_body(alloc, &task, scopes, span, written)
}

/// The condition of a rule or a method.
fn guard(
    alloc: Global,
    site: &ModuleContext<'_>,
    scopes: &Scopes<Variable>,
    span: Span,
    condition: &Option<Expr>,
) -> Result<Option<Typed>, BodyFail>
    ensures { GivesAt (λ c. c) result (spec.guard (spec.task (site_of site.now)) span
        (shown scopes.now) condition.now) }
{
    match condition {
        None => Ok(None),
        Some(test) => {
            let typed = site.of_type(alloc, scopes, span, test, &Ty::Bool)?;
            Ok(Some(typed))
        }
    }
}

/// The level of the next variable.
#[tactic(auto, using(crate::proofs::Names::counts))]
pub fn level(scopes: &Scopes<Variable>) -> Result<u32, BodyFail>
    ensures { GivesAt (λ n. n) result (Ok (in_scope (shown scopes.now))) }
{
    match scopes.count() {
        Some(level) => Ok(level),
        None => Err(BodyFail::Memory),
    }
}

/// The statements of a rule, in a scope of their own.
#[tactic(auto, using(bsv_context::proofs::Layers::closes))]
fn rule_body(
    alloc: Global,
    site: &ModuleContext<'_>,
    scopes: &mut Scopes<Variable>,
    body: &[Stmt],
) -> Result<Items<TypedStmt>, BodyFail>
    ensures { GivesAt (λ xs. (shown scopes.new, xs)) result
        (spec.rule_body (site_of site.now) body.now (shown scopes.old)) }
{
    let task = Task {
        context: site.context,
        acts: true,
        result: None,
        base: level(scopes)?,
    };
    scopes.open(alloc)?;
    let typed = statements(alloc, &task, scopes, body)?;
    scopes.close();
    Ok(typed)
}

/// A rule whole.
fn rule_whole(
    alloc: Global,
    site: &ModuleContext<'_>,
    scopes: &mut Scopes<Variable>,
    span: Span,
    written: &WrittenRule,
) -> Result<Rule, BodyFail>
    ensures { GivesAt (λ r. (shown scopes.new, r)) result
        (spec.rule_at (site_of site.now) span written.now (shown scopes.old)) }
{
    let attributes = asked(alloc, span, Owner::Rule, written.attributes.as_slice())?;
    if !is_lower(written.name.name.bytes()) {
        return Err(BodyFail::At(span));
    }
    let name = Name::new(alloc, written.name.name.bytes())?;
    let condition = guard(alloc, site, scopes, span, &written.condition)?;
    let condition = Boxed::new(alloc, condition)?;
    let body = rule_body(alloc, site, scopes, written.body.as_slice())?;
    Ok(Rule {
        name,
        attributes,
        condition: condition.into_inner(),
        body,
    })
}

/// A rule.
pub(crate) fn rule(
    alloc: Global,
    site: &ModuleContext<'_>,
    state: &mut State,
    span: Span,
    written: &WrittenRule,
) -> Result<ModuleStmt, BodyFail>
    ensures { GivesAt (λ x. (state_of state.new, x)) result
        (spec.rule_case (site_of site.now) span written.now (state_of state.old)) }
{
    let number = at(span, place_number(state.rules.len()))?;
    let typed = rule_whole(alloc, site, &mut state.scopes, span, written)?;
    state.rules.push(typed)?;
    Ok(ModuleStmt::Rule(number))
}

/// The parameters of a method and what it does and gives, which are those that the interface wants.
pub fn method_header(
    alloc: Global,
    site: &ModuleContext<'_>,
    span: Span,
    written: &WrittenMethod,
    wanted: FoundMethod<'_>,
) -> Result<(Items<Param>, MethodResult), BodyFail>
    ensures { GivesAt method_header_of result
        (spec.method_header (site_of site.now) span written.now (method_of wanted.entry).1) }
{
    let own = params(
        alloc,
        site.context,
        span,
        written.params.as_slice(),
        Allowed::Any,
    )?;
    if !wanted.takes(own.as_slice()) || !params_named(alloc, own.as_slice())? {
        return Err(BodyFail::At(span));
    }
    let does = at(span, written_effect(alloc, site.context, &written.result))?;
    if wanted.does(&does) {
        Ok((own, does))
    } else {
        Err(BodyFail::At(span))
    }
}

/// Whether the method of this number does not stand yet.
fn is_free(methods: &[Option<Method>], number: usize) -> bool
    ensures free { result ≡ spec.is_free number methods.now }
    ensures within { IsTrue result → number < length methods.now }
{
    match methods.get(number) {
        Some(None) => true,
        _ => false,
    }
}

/// The body of a method, in the scope of its parameters.
#[tactic(auto, using(bsv_context::proofs::Layers::closes))]
fn method_body(
    alloc: Global,
    site: &ModuleContext<'_>,
    scopes: &mut Scopes<Variable>,
    span: Span,
    params: &[Param],
    does: &MethodResult,
    written: &WrittenBody,
) -> Result<Body, BodyFail>
    ensures { GivesAt (λ b. (shown scopes.new, b)) result
        (spec.method_body (site_of site.now) span params.now (effect does.now) written.now
        (shown scopes.old)) }
{
    let base = level(scopes)?;
    scopes.open(alloc)?;
    declare_params(alloc, span, scopes, params)?;
    let typed = body(alloc, site.context, scopes, span, base, does, written)?;
    scopes.close();
    Ok(typed)
}

/// A method that the interface wants and that does not stand yet.
#[tactic(auto, unfolding(bsv_context::specs::Methods::method_named))]
pub fn wanted<'a>(
    site: &ModuleContext<'a>,
    state: &State,
    span: Span,
    name: &Name,
) -> Result<FoundMethod<'a>, BodyFail>
    ensures found { GivesAt method_of result (spec.wanted_method (site_of site.now) span name.now
        (state_of state.now)) }
    ensures within { IfOk result (λ m. m.number < vec_len state.now.methods) }
{
    let Some(found) = method_named(site.context, site.interface, name.bytes()) else {
        return Err(BodyFail::At(span));
    };
    if is_free(state.methods.as_slice(), found.number) {
        Ok(found)
    } else {
        Err(BodyFail::At(span))
    }
}

/// A method whole.
#[tactic(auto, using(crate::proofs::Names::results))]
fn method_whole(
    alloc: Global,
    site: &ModuleContext<'_>,
    scopes: &mut Scopes<Variable>,
    span: Span,
    written: &WrittenMethod,
    found: FoundMethod<'_>,
) -> Result<Method, BodyFail>
    ensures { GivesAt (λ m. (shown scopes.new, m)) result
        (spec.method_at (site_of site.now) span written.now (method_of found.entry).1
        (shown scopes.old)) }
{
    let name = Name::new(alloc, written.name.name.bytes())?;
    let header = Boxed::new(alloc, method_header(alloc, site, span, written, found)?)?;
    let condition = guard(alloc, site, scopes, span, &written.condition)?;
    let condition = Boxed::new(alloc, condition)?;
    let (params, does) = header.get();
    let given = params.as_slice();
    let body = method_body(alloc, site, scopes, span, given, does, &written.body)?;
    let (params, result) = header.into_inner();
    Ok(Method {
        name,
        params,
        result,
        condition: condition.into_inner(),
        body,
    })
}

/// The method of this number stands.
pub fn stand(methods: &mut Vec<Option<Method>>, number: usize, method: Method)
    requires { number < vec_len methods.old }
    ensures { methods.new.items ≡ slice_set methods.old.items number (Some method) }
{
    // What was there is dropped by a call, in one step.
    drop(replace(&mut methods[number], Some(method)));
}

/// A method.
pub(crate) fn method(
    alloc: Global,
    site: &ModuleContext<'_>,
    state: &mut State,
    span: Span,
    written: &WrittenMethod,
) -> Result<ModuleStmt, BodyFail>
    ensures { GivesAt (λ x. (state_of state.new, x)) result
        (spec.method_case (site_of site.now) span written.now (state_of state.old)) }
{
    let found = wanted(site, state, span, &written.name.name)?;
    let number = at(span, place_number(found.number))?;
    let typed = method_whole(alloc, site, &mut state.scopes, span, written, found)?;
    stand(&mut state.methods, found.number, typed);
    Ok(ModuleStmt::Method(number))
}
