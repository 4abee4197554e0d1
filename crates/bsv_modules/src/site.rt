ghost use Rattle.bsv_types.specs.Kinds.{kind};
ghost use Rattle.bsv_statements.specs.Bodies.{of_kind};
ghost use Rattle.bsv_context.specs.Seen.{shown};
ghost use Rattle.bsv_statements.specs.SeenBodies.{GivesAt};
ghost use Rattle.bsv_modules.specs.Modules as spec;
ghost use Rattle.bsv_modules.specs.Seen.{site_of};

use bsv_ast::{Expr, Span};
use bsv_context::{Context, Variable};
use bsv_scopes::{Scope, Scopes};
use bsv_statements::{BodyFail, Task, of_type};
use bsv_types::{Expr as Typed, Items, Method, Rule, Ty};
use std::alloc::Global;

/// A module as its makers see it.
#[derive(Drop)]
pub struct Header {
    /// Its place among the modules.
    pub number: u32,
    /// The types of its parameters.
    pub params: Items<Ty>,
    pub interface: Ty,
}

/// What the statements of a module may name beside variables.
#[derive(Clone, Copy)]
pub struct ModuleContext<'a> {
    pub context: &'a Context,
    pub modules: &'a Scope<Header>,
    /// The interface of the module.
    pub interface: &'a Ty,
}

/// What was typed of a module so far.
#[derive(Drop)]
pub struct State {
    pub scopes: Scopes<Variable>,
    /// The rules in the order of the text.
    pub rules: Items<Rule>,
    /// The methods in the order of the interface, where they stood already.
    pub methods: Vec<Option<Method>>,
}

impl ModuleContext<'_> {
    /// An expression of this type, in a statement of the module's body.
    pub(crate) fn of_type(
        &self,
        alloc: Global,
        scopes: &Scopes<Variable>,
        span: Span,
        expr: &Expr,
        ty: &Ty,
    ) -> Result<Typed, BodyFail>
        ensures { GivesAt (λ x. x) result (of_kind (spec.task (site_of self.now))
            (shown scopes.now) span expr.now (kind ty.now)) }
    {
        let task = Task {
            context: self.context,
            acts: false,
            result: None,
            base: 0,
        };
        of_type(alloc, &task, scopes, span, expr, ty)
    }
}
