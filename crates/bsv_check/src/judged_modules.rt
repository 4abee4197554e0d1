//! Which places of rules, methods and statements of modules have a fault of their own.

ghost use Rattle.std.specs.Prelude.{◌≡◌, IfOk, map, option_map};
ghost use Rattle.bsv_types.specs.Kinds.{kind};
ghost use Rattle.bsv_types.specs.Methods.{effect};
ghost use Rattle.bsv_context.specs.Seen.{method_of, shown, type_names};
ghost use Rattle.bsv_statements.specs.SeenBodies.{GivesAt, fixed};
ghost use Rattle.bsv_names.specs.ModuleEvents.{module_stmt_events};
ghost use Rattle.bsv_names.specs.UntypedSeen.{reached, variables};
ghost use Rattle.bsv_names.specs.Untyped as untyped;
ghost use Rattle.bsv_check.specs.Judged as statements;
ghost use Rattle.bsv_check.specs.JudgedModules as spec;
ghost use Rattle.bsv_check.specs.JudgedSeen.{in_module, judging};
ghost use Rattle.bsv_modules.specs.Modules as modules;
ghost use Rattle.bsv_modules.specs.Seen.{state_of};

use crate::judged_statements::Judge;
use bsv_ast::{Body, Boxed, Expr, Head, Method, ModuleBranch, ModuleStmt, Rule, Span};
use bsv_bits::{Name, OutOfMemory};
use bsv_context::{Context, FoundMethod, Variable, is_lower};
use bsv_modules::{
    ModuleContext, State, asked, declare_params, level, method_header, nested, stand, wanted,
};
use bsv_names::{Reach, Variables};
use bsv_scopes::Scopes;
use bsv_statements::{BodyFail, Task, returns};
use bsv_types::{Body as TypedBody, Items, Method as TypedMethod, MethodResult, Owner, Param, Ty};
use std::alloc::Global;

/// What each call in a module has at hand.
#[derive(Clone, Copy)]
pub(crate) struct ModuleJudge<'a> {
    pub(crate) alloc: Global,
    /// What has no typing.
    pub(crate) reach: Reach<'a>,
    /// What the statements of the module may name.
    pub(crate) site: ModuleContext<'a>,
}

/// A body that gives a value of the type.
fn giving(
    judge: Judge<'_>,
    names: &mut Variables,
    scopes: &mut Scopes<Variable>,
    span: Span,
    ty: &Ty,
    body: &Body,
) -> Result<(), BodyFail>
    ensures { GivesAt (λ u. (variables names.new, shown scopes.new)) result
        (spec.giving_judged (judging judge.entry) span (kind ty.now) body.now
        (variables names.old) (shown scopes.old)) }
{
    match body {
        Body::Statements(_, stmts) => {
            if !returns(stmts.as_slice()) {
                return Err(BodyFail::At(span));
            }
            judge.stmts(names, scopes, stmts.as_slice())
        }
        Body::Value(_, value) => judge.expr(names, scopes, span, ty, value),
    }
}

/// A body that only acts.
fn acting(
    judge: Judge<'_>,
    names: &mut Variables,
    scopes: &mut Scopes<Variable>,
    span: Span,
    body: &Body,
) -> Result<(), BodyFail>
    ensures { GivesAt (λ u. (variables names.new, shown scopes.new)) result
        (spec.acting_judged (judging judge.entry) span body.now
        (variables names.old) (shown scopes.old)) }
{
    match body {
        Body::Statements(_, stmts) => judge.stmts(names, scopes, stmts.as_slice()),
        Body::Value(_, _) => Err(BodyFail::At(span)),
    }
}

/// A body of a function or a method, which does and gives this, and whose variables begin at this
/// level.
pub(crate) fn judge_body(
    alloc: Global,
    reach: Reach<'_>,
    context: &Context,
    names: &mut Variables,
    scopes: &mut Scopes<Variable>,
    span: Span,
    base: u32,
    does: &MethodResult,
    body: &Body,
) -> Result<(), BodyFail>
    ensures { GivesAt (λ u. (variables names.new, shown scopes.new)) result
        (spec.body_judged (reached reach.entry) (fixed context.now) (type_names context.now) span
        base (effect does.now) body.now (variables names.old) (shown scopes.old)) }
{
    let (acts, result) = match does {
        MethodResult::Value(ty) => (false, Some(ty)),
        MethodResult::Action => (true, None),
        MethodResult::ActionValue(ty) => (true, Some(ty)),
    };
    let task = Task {
        context,
        acts,
        result,
        base,
    };
    let judge = Judge { alloc, reach, task };
    match result {
        Some(ty) => giving(judge, names, scopes, span, ty, body),
        None => acting(judge, names, scopes, span, body),
    }
}

/// A method that stands, of which nothing more is known.
fn standing(alloc: Global, method: &Method) -> Result<TypedMethod, OutOfMemory>
    ensures { IfOk result (λ m. m ≡ spec.standing method.now) }
{
    Ok(TypedMethod {
        name: Name::new(alloc, method.name.name.bytes())?,
        params: Items::new(alloc),
        result: MethodResult::Action,
        condition: None,
        body: TypedBody::Statements(Items::new(alloc)),
    })
}

impl ModuleJudge<'_> {
    /// The condition of a rule, a method or an arm alone.
    fn guard(
        self,
        names: &Variables,
        scopes: &Scopes<Variable>,
        span: Span,
        condition: Option<&Expr>,
    ) -> Result<(), BodyFail>
        ensures { GivesAt (λ u. u) result (spec.guard_judged (in_module self.entry) span
            (option_map (λ e. e.now) condition.entry) (variables names.now) (shown scopes.now)) }
    {
        match condition {
            Some(test) => {
                let task = Task {
                    context: self.site.context,
                    acts: false,
                    result: None,
                    base: 0,
                };
                let judge = Judge {
                    alloc: self.alloc,
                    reach: self.reach,
                    task,
                };
                judge.expr(names, scopes, span, &Ty::Bool, test)
            }
            None => Ok(()),
        }
    }

    /// The statements of a rule, whose scope stays open.
    fn rule_stmts(
        self,
        names: &mut Variables,
        scopes: &mut Scopes<Variable>,
        rule: &Rule,
    ) -> Result<(), BodyFail>
        ensures { GivesAt (λ u. (variables names.new, shown scopes.new)) result
            (spec.rule_stmts_judged (in_module self.entry) rule.now (variables names.old)
            (shown scopes.old)) }
    {
        let task = Task {
            context: self.site.context,
            acts: true,
            result: None,
            base: level(scopes)?,
        };
        let judge = Judge {
            alloc: self.alloc,
            reach: self.reach,
            task,
        };
        names.open(self.alloc)?;
        scopes.open(self.alloc)?;
        judge.stmts(names, scopes, rule.body.as_slice())
    }

    /// The statements of a rule, in a scope of their own.
    #[tactic(auto, using(bsv_context::proofs::Layers::closes))]
    fn rule_body(
        self,
        names: &mut Variables,
        scopes: &mut Scopes<Variable>,
        rule: &Rule,
    ) -> Result<(), BodyFail>
        ensures { GivesAt (λ u. (variables names.new, shown scopes.new)) result
            (spec.rule_body_judged (in_module self.entry) rule.now (variables names.old)
            (shown scopes.old)) }
    {
        self.rule_stmts(names, scopes, rule)?;
        names.close();
        scopes.close();
        Ok(())
    }

    /// A rule.
    fn rule(
        self,
        names: &mut Variables,
        scopes: &mut Scopes<Variable>,
        span: Span,
        rule: &Rule,
    ) -> Result<(), BodyFail>
        ensures { GivesAt (λ u. (variables names.new, shown scopes.new)) result
            (spec.rule_judged (in_module self.entry) span rule.now (variables names.old)
            (shown scopes.old)) }
    {
        drop(asked(self.alloc, span, Owner::Rule, rule.attributes.as_slice())?);
        if !is_lower(rule.name.name.bytes()) {
            return Err(BodyFail::At(span));
        }
        self.guard(names, scopes, span, rule.condition.as_ref())?;
        self.rule_body(names, scopes, rule)
    }

    /// The parameters of a method, where its types have a typing.
    fn header(
        self,
        names: &Variables,
        span: Span,
        method: &Method,
        found: FoundMethod<'_>,
    ) -> Result<Option<Items<Param>>, BodyFail>
        ensures { GivesAt (λ ps. ps) result (spec.header_by (in_module self.entry)
            (untyped.leans (in_module self.entry).untyped (variables names.now)
            (untyped.method_header_events method.now)) span method.now
            (method_of found.entry).1) }
    {
        if self.reach.method_header_leans(self.alloc, names, method)? {
            return Ok(None);
        }
        let (params, does) = method_header(self.alloc, &self.site, span, method, found)?;
        drop(does);
        Ok(Some(params))
    }

    /// Opens the scope of the parameters of a method.
    fn open_params(
        self,
        names: &mut Variables,
        scopes: &mut Scopes<Variable>,
        span: Span,
        method: &Method,
        params: &Option<Items<Param>>,
    ) -> Result<(), BodyFail>
        ensures { GivesAt (λ u. (variables names.new, shown scopes.new)) result
            (spec.params_opened (in_module self.entry) span method.now params.now
            (variables names.old) (shown scopes.old)) }
    {
        scopes.open(self.alloc)?;
        if let Some(typed) = params {
            declare_params(self.alloc, span, scopes, typed.as_slice())?;
        }
        names.open(self.alloc)?;
        names.declare_params(self.alloc, method.params.as_slice(), params.is_some())?;
        Ok(())
    }

    /// The body of a method, in the scope of its parameters.
    #[tactic(auto, using(bsv_context::proofs::Layers::closes))]
    fn method_body(
        self,
        names: &mut Variables,
        scopes: &mut Scopes<Variable>,
        span: Span,
        method: &Method,
        found: FoundMethod<'_>,
        params: &Option<Items<Param>>,
    ) -> Result<(), BodyFail>
        ensures { GivesAt (λ u. (variables names.new, shown scopes.new)) result
            (spec.method_body_judged (in_module self.entry) span method.now
            (method_of found.entry).1 params.now (variables names.old) (shown scopes.old)) }
    {
        let base = level(scopes)?;
        let does = found.result(self.alloc)?;
        self.open_params(names, scopes, span, method, params)?;
        let context = self.site.context;
        judge_body(
            self.alloc,
            self.reach,
            context,
            names,
            scopes,
            span,
            base,
            &does,
            &method.body,
        )?;
        names.close();
        scopes.close();
        Ok(())
    }

    /// The parts of a method.
    fn method_parts(
        self,
        names: &mut Variables,
        scopes: &mut Scopes<Variable>,
        span: Span,
        method: &Method,
        found: FoundMethod<'_>,
    ) -> Result<(), BodyFail>
        ensures { GivesAt (λ u. (variables names.new, shown scopes.new)) result
            (spec.method_parts_judged (in_module self.entry) span method.now
            (method_of found.entry).1 (variables names.old) (shown scopes.old)) }
    {
        let params = self.header(names, span, method, found)?;
        self.guard(names, scopes, span, method.condition.as_ref())?;
        self.method_body(names, scopes, span, method, found, &params)
    }

    /// A method.
    fn method(
        self,
        names: &mut Variables,
        state: &mut State,
        span: Span,
        method: &Method,
    ) -> Result<(), BodyFail>
        ensures { GivesAt (λ u. (variables names.new, state_of state.new)) result
            (spec.method_judged (in_module self.entry) span method.now (variables names.old)
            (state_of state.old)) }
    {
        let found = wanted(&self.site, state, span, &method.name.name)?;
        self.method_parts(names, &mut state.scopes, span, method, found)?;
        let typed = standing(self.alloc, method)?;
        stand(&mut state.methods, found.number, typed);
        Ok(())
    }

    /// A statement that holds no others, and the variable that it declares.
    fn leaf(
        self,
        names: &mut Variables,
        state: &mut State,
        stmt: &ModuleStmt,
        declared: Option<&Name>,
    ) -> Result<(), BodyFail>
        ensures { GivesAt (λ u. (variables names.new, state_of state.new)) result
            (statements.leaf (λ vs. untyped.leans (in_module self.entry).untyped vs
            (module_stmt_events stmt.now))
            (option_map (λ n. n.now) declared.entry) (modules.nested (in_module self.entry).site
            stmt.now) (variables names.old) (state_of state.old)) }
    {
        let leans = self.reach.module_stmt_leans(self.alloc, names, stmt)?;
        if !leans {
            drop(nested(self.alloc, &self.site, state, stmt)?);
        }
        names.declare(self.alloc, declared, !leans)?;
        Ok(())
    }

    /// A statement in a block, a branch or a loop.
    #[cycle(judged_modules)]
    fn nested(
        self,
        names: &mut Variables,
        state: &mut State,
        stmt: &ModuleStmt,
    ) -> Result<(), BodyFail>
        ensures { GivesAt (λ u. (variables names.new, state_of state.new)) result
            (spec.nested_judged (in_module self.entry) stmt.now (variables names.old)
            (state_of state.old)) }
    {
        match stmt {
            ModuleStmt::Instance(_, _, name, _) | ModuleStmt::Array(_, _, name, _) => {
                self.leaf(names, state, stmt, Some(&name.name))
            }
            ModuleStmt::Declare(_, given) => {
                self.leaf(names, state, stmt, Some(&given.name.name))
            }
            ModuleStmt::Place(_, _, _, _) | ModuleStmt::Assign(_, _, _) => {
                self.leaf(names, state, stmt, None)
            }
            ModuleStmt::Block(_, stmts) => self.block(names, state, stmts.as_slice()),
            ModuleStmt::If(span, branches, otherwise) => {
                self.choice(names, state, *span, branches.as_slice(), otherwise)
            }
            ModuleStmt::For(span, head, body) => {
                self.repeat(names, state, *span, head, body.get())
            }
            ModuleStmt::Rule(span, rule) => self.rule(names, &mut state.scopes, *span, rule),
            ModuleStmt::Method(span, _) => Err(BodyFail::At(*span)),
        }
    }

    /// Statements in a block.
    #[cycle(judged_modules)]
    fn all_nested(
        self,
        names: &mut Variables,
        state: &mut State,
        stmts: &[ModuleStmt],
    ) -> Result<(), BodyFail>
        ensures { GivesAt (λ u. (variables names.new, state_of state.new)) result
            (statements.all_judged (map (spec.nested_judged (in_module self.entry)) stmts.now)
            (variables names.old) (state_of state.old)) }
    {
        let mut rest = stmts;
        while let Some((stmt, after)) = rest.split_first() {
            self.nested(names, state, stmt)?;
            rest = after;
        }
        Ok(())
    }

    /// `begin .. end`, which is a scope of its own.
    #[cycle(judged_modules)]
    #[tactic(auto, using(bsv_context::proofs::Layers::closes))]
    fn block(
        self,
        names: &mut Variables,
        state: &mut State,
        stmts: &[ModuleStmt],
    ) -> Result<(), BodyFail>
        ensures { GivesAt (λ u. (variables names.new, state_of state.new)) result
            (spec.inside (in_module self.entry) (statements.all_judged (map (spec.nested_judged
            (in_module self.entry)) stmts.now)) (variables names.old) (state_of state.old)) }
    {
        names.open(self.alloc)?;
        state.scopes.open(self.alloc)?;
        self.all_nested(names, state, stmts)?;
        names.close();
        state.scopes.close();
        Ok(())
    }

    /// A statement in a scope of its own.
    #[cycle(judged_modules)]
    #[tactic(auto, using(bsv_context::proofs::Layers::closes))]
    fn inside(
        self,
        names: &mut Variables,
        state: &mut State,
        stmt: &ModuleStmt,
    ) -> Result<(), BodyFail>
        ensures { GivesAt (λ u. (variables names.new, state_of state.new)) result
            (spec.inside (in_module self.entry) (spec.nested_judged (in_module self.entry) stmt.now)
            (variables names.old) (state_of state.old)) }
    {
        names.open(self.alloc)?;
        state.scopes.open(self.alloc)?;
        self.nested(names, state, stmt)?;
        names.close();
        state.scopes.close();
        Ok(())
    }

    /// What comes after a last `else`.
    #[cycle(judged_modules)]
    fn last(
        self,
        names: &mut Variables,
        state: &mut State,
        otherwise: &Option<Boxed<ModuleStmt>>,
    ) -> Result<(), BodyFail>
        ensures { GivesAt (λ u. (variables names.new, state_of state.new)) result
            (spec.last_judged (in_module self.entry) (option_map (spec.nested_judged
            (in_module self.entry)) otherwise.now) (variables names.old) (state_of state.old)) }
    {
        match otherwise {
            Some(stmt) => self.inside(names, state, stmt.get()),
            None => Ok(()),
        }
    }

    /// The condition in front of an arm alone.
    fn condition(
        self,
        names: &Variables,
        scopes: &Scopes<Variable>,
        span: Span,
        branch: &ModuleBranch,
    ) -> Result<(), BodyFail>
        ensures { GivesAt (λ u. u) result (spec.guard_judged (in_module self.entry) span
            (Some (spec.arm_of (in_module self.entry) branch.now).condition) (variables names.now)
            (shown scopes.now)) }
    {
        self.guard(names, scopes, span, Some(&branch.condition))
    }

    /// The conditions of an `if`.
    fn conditions(
        self,
        names: &Variables,
        scopes: &Scopes<Variable>,
        span: Span,
        branches: &[ModuleBranch],
    ) -> Result<(), BodyFail>
        ensures { GivesAt (λ u. u) result (spec.conditions_judged (in_module self.entry) span
            (map (spec.arm_of (in_module self.entry)) branches.now) (variables names.now)
            (shown scopes.now)) }
    {
        let mut rest = branches;
        while let Some((branch, after)) = rest.split_first() {
            self.condition(names, scopes, span, branch)?;
            rest = after;
        }
        Ok(())
    }

    /// An arm of an `if`.
    #[cycle(judged_modules)]
    fn arm(
        self,
        names: &mut Variables,
        state: &mut State,
        branch: &ModuleBranch,
    ) -> Result<(), BodyFail>
        ensures { GivesAt (λ u. (variables names.new, state_of state.new)) result (spec.inside
            (in_module self.entry) (spec.arm_of (in_module self.entry) branch.now).judge
            (variables names.old) (state_of state.old)) }
    {
        self.inside(names, state, &branch.arm)
    }

    /// The arms of an `if`.
    #[cycle(judged_modules)]
    fn arms(
        self,
        names: &mut Variables,
        state: &mut State,
        branches: &[ModuleBranch],
    ) -> Result<(), BodyFail>
        ensures { GivesAt (λ u. (variables names.new, state_of state.new)) result
            (spec.arms_judged (in_module self.entry) (map (spec.arm_of (in_module self.entry))
            branches.now) (variables names.old) (state_of state.old)) }
    {
        let mut rest = branches;
        while let Some((branch, after)) = rest.split_first() {
            self.arm(names, state, branch)?;
            rest = after;
        }
        Ok(())
    }

    /// An `if`: its conditions, then its arms.
    #[cycle(judged_modules)]
    fn choice(
        self,
        names: &mut Variables,
        state: &mut State,
        span: Span,
        branches: &[ModuleBranch],
        otherwise: &Option<Boxed<ModuleStmt>>,
    ) -> Result<(), BodyFail>
        ensures { GivesAt (λ u. (variables names.new, state_of state.new)) result
            (spec.if_judged (in_module self.entry) span (map (spec.arm_of (in_module self.entry))
            branches.now) (option_map (spec.nested_judged (in_module self.entry)) otherwise.now)
            (variables names.old) (state_of state.old)) }
    {
        self.conditions(names, &state.scopes, span, branches)?;
        self.arms(names, state, branches)?;
        self.last(names, state, otherwise)
    }

    /// A `for`, whose arm shares the scope of its variable.
    #[cycle(judged_modules)]
    #[tactic(auto, using(bsv_context::proofs::Layers::closes))]
    fn repeat(
        self,
        names: &mut Variables,
        state: &mut State,
        span: Span,
        head: &Head,
        body: &ModuleStmt,
    ) -> Result<(), BodyFail>
        ensures { GivesAt (λ u. (variables names.new, state_of state.new)) result
            (spec.for_judged (in_module self.entry) span head.now
            (spec.nested_judged (in_module self.entry) body.now) (variables names.old)
            (state_of state.old)) }
    {
        let task = Task {
            context: self.site.context,
            acts: false,
            result: None,
            base: 0,
        };
        let judge = Judge {
            alloc: self.alloc,
            reach: self.reach,
            task,
        };
        judge.open_loop(names, &mut state.scopes, span, head)?;
        self.nested(names, state, body)?;
        names.close();
        state.scopes.close();
        Ok(())
    }

    /// A statement that stands directly in the body.
    fn direct(
        self,
        names: &mut Variables,
        state: &mut State,
        stmt: &ModuleStmt,
    ) -> Result<(), BodyFail>
        ensures { GivesAt (λ u. (variables names.new, state_of state.new)) result
            (spec.direct_judged (in_module self.entry) stmt.now (variables names.old)
            (state_of state.old)) }
    {
        match stmt {
            ModuleStmt::Method(span, method) => self.method(names, state, *span, method),
            _ => self.nested(names, state, stmt),
        }
    }

    /// The statements of the body of a module.
    pub(crate) fn all_direct(
        self,
        names: &mut Variables,
        state: &mut State,
        stmts: &[ModuleStmt],
    ) -> Result<(), BodyFail>
        ensures { GivesAt (λ u. (variables names.new, state_of state.new)) result
            (statements.all_judged (map (spec.direct_judged (in_module self.entry)) stmts.now)
            (variables names.old) (state_of state.old)) }
    {
        let mut rest = stmts;
        while let Some((stmt, after)) = rest.split_first() {
            self.direct(names, state, stmt)?;
            rest = after;
        }
        Ok(())
    }
}
