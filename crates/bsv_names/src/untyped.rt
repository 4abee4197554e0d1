ghost use Rattle.std.specs.Prelude.{◌≡◌, [], IfOk, OnOk, option_map, length};
ghost use Rattle.bsv_scopes.specs.Scopes.{is_listed, find_in, opened, closed};
ghost use Rattle.bsv_scopes.specs.Seen.{scopes};
ghost use Rattle.bsv_names.specs.ExpressionEvents as expressions;
ghost use Rattle.bsv_names.specs.StatementEvents as statements;
ghost use Rattle.bsv_names.specs.ModuleEvents as modules;
ghost use Rattle.bsv_names.specs.PackageEvents as listed;
ghost use Rattle.bsv_names.specs.Untyped as spec;
ghost use Rattle.bsv_names.specs.UntypedSeen.{untyped, reached, variables as seen_variables};

use crate::event::Event;
use crate::expression_events::{expr_events, type_events};
use crate::module_events::{module_stmt_events, param_types};
use crate::package_events::item_events;
use crate::statement_events::{condition_events, head_events, stmt_events};
use bsv_ast::{Condition, Expr, Head, Item, Items, Method, ModuleStmt, Param, Stmt};
use bsv_bits::{Name, OutOfMemory};
use bsv_scopes::{Scope, Scopes, Space};
use std::alloc::Global;

/// The names of the definitions that have no typing. A definition or a statement that names one of
/// them is not blamed for a fault.
#[derive(Drop)]
pub struct Untyped {
    types: Scope<()>,
    labels: Scope<()>,
    functions: Scope<()>,
    modules: Scope<()>,
}

/// What has no typing, as the body of a function or a module sees it: of the functions only so many
/// count, in the order in which they stand.
#[derive(Clone, Copy)]
pub struct Reach<'a> {
    pub untyped: &'a Untyped,
    pub functions: usize,
}

/// The variables in scope, each with whether it has a typing.
#[derive(Drop)]
pub struct Variables {
    typed: Scopes<bool>,
}

/// The variables that are defined inside, after an event.
fn take_in(alloc: Global, locals: &mut Scopes<()>, event: &Event) -> Result<(), OutOfMemory>
    ensures { OnOk result (scopes locals.new ≡ spec.locals_after (scopes locals.old) event.now) }
{
    match event {
        Event::DefineVariable(name, _) => {
            let copy = Name::new(alloc, name.bytes())?;
            let _is_new = locals.define(copy, ())?;
        }
        Event::Open => locals.open(alloc)?,
        Event::Close => locals.close(),
        Event::Define(_, _, _)
        | Event::Use(_, _, _)
        | Event::UseVariable(_, _)
        | Event::UseValue(_, _) => {}
    }
    Ok(())
}

/// The names of the header of a function or a module.
fn header_events(alloc: Global, item: &Item) -> Result<Items<Event>, OutOfMemory>
    ensures { IfOk result (λ events. events ≡ spec.header_events item.now) }
{
    let mut found = Items::new(alloc);
    match item {
        Item::Function(_, function) => {
            type_events(alloc, &function.result, &mut found)?;
            param_types(alloc, function.params.as_slice(), &mut found)?;
        }
        Item::Module(_, module) => {
            param_types(alloc, module.params.as_slice(), &mut found)?;
            type_events(alloc, &module.interface, &mut found)?;
        }
        Item::Import(_, _) | Item::Typedef(_, _) | Item::Interface(_, _) => {}
    }
    Ok(found)
}

impl Untyped {
    /// All that is defined has a typing.
    pub fn new(alloc: Global) -> Untyped
        ensures { untyped result ≡ spec.all_typed }
    {
        Untyped {
            types: Scope::new(alloc),
            labels: Scope::new(alloc),
            functions: Scope::new(alloc),
            modules: Scope::new(alloc),
        }
    }

    /// One name more in the space.
    #[tactic(auto, using(bsv_scopes::proofs::Names::defined))]
    fn define(&mut self, alloc: Global, space: Space, name: &Name) -> Result<(), OutOfMemory>
        ensures { OnOk result (untyped self.new
            ≡ spec.with_definition space name.now (untyped self.old)) }
    {
        let copy = Name::new(alloc, name.bytes())?;
        let _is_new = match space {
            Space::Types => self.types.define(copy, ())?,
            Space::Labels => self.labels.define(copy, ())?,
            Space::Functions => self.functions.define(copy, ())?,
            Space::Modules => self.modules.define(copy, ())?,
        };
        Ok(())
    }

    /// The names that these events define.
    fn add_events(&mut self, alloc: Global, events: &[Event]) -> Result<(), OutOfMemory>
        ensures { OnOk result (untyped self.new ≡ spec.with_untyped events.now (untyped self.old)) }
    {
        let mut rest = events;
        while let Some((event, after)) = rest.split_first() {
            if let Event::Define(space, name, _) = event {
                self.define(alloc, *space, name)?;
            }
            rest = after;
        }
        Ok(())
    }

    /// What the item defines has no typing.
    pub fn add(&mut self, alloc: Global, item: &Item) -> Result<(), OutOfMemory>
        ensures { OnOk result (untyped self.new
            ≡ spec.with_untyped (listed.item_events item.now) (untyped self.old)) }
    {
        let events = item_events(alloc, item)?;
        self.add_events(alloc, events.as_slice())
    }

    /// Whether what the name stands for in the space has no typing.
    pub fn has(&self, space: Space, name: &Name) -> bool
        ensures { result ≡ is_listed name.now (spec.untyped_in space (untyped self.now)) }
    {
        match space {
            Space::Types => self.types.is_defined(name),
            Space::Labels => self.labels.is_defined(name),
            Space::Functions => self.functions.is_defined(name),
            Space::Modules => self.modules.is_defined(name),
        }
    }

    /// How many functions have none.
    #[tactic(auto, using(crate::proofs::Reaching::counts))]
    pub fn functions(&self) -> usize
        ensures { result ≡ length (untyped self.now).functions }
    {
        self.functions.len()
    }

    /// As all functions may be called.
    #[tactic(auto, using(crate::proofs::Reaching::reaches))]
    pub fn whole(&self) -> Reach<'_>
        ensures { reached result ≡ untyped self.now }
    {
        Reach {
            untyped: self,
            functions: self.functions(),
        }
    }

    /// Whether the item names something without a typing.
    #[tactic(auto, unfolding(crate::specs::Untyped::item_leans))]
    pub fn item_leans(&self, alloc: Global, item: &Item) -> Result<bool, OutOfMemory>
        ensures { IfOk result (λ r. r ≡ spec.item_leans (untyped self.now) item.now) }
    {
        let events = item_events(alloc, item)?;
        let variables = Variables::new(alloc);
        self.whole().leans(alloc, &variables, events.as_slice())
    }

    /// Whether the header of a function or a module names something without a typing.
    #[tactic(auto, unfolding(crate::specs::Untyped::header_leans))]
    pub fn header_leans(&self, alloc: Global, item: &Item) -> Result<bool, OutOfMemory>
        ensures { IfOk result (λ r. r ≡ spec.header_leans (untyped self.now) item.now) }
    {
        let events = header_events(alloc, item)?;
        let variables = Variables::new(alloc);
        self.whole().leans(alloc, &variables, events.as_slice())
    }
}

impl Reach<'_> {
    /// Whether the function of the name counts, and has no typing.
    #[tactic(auto, using(crate::proofs::Reaching::reaches))]
    fn lacks_function(self, name: &Name) -> bool
        ensures { result ≡ is_listed name.now (reached self.entry).functions }
    {
        match self.untyped.functions.number(name) {
            Some(number) => number < self.functions,
            None => false,
        }
    }

    /// Whether what the name stands for in the space has no typing.
    fn has(self, space: Space, name: &Name) -> bool
        ensures { result ≡ is_listed name.now (spec.untyped_in space (reached self.entry)) }
    {
        match space {
            Space::Functions => self.lacks_function(name),
            Space::Types | Space::Labels | Space::Modules => self.untyped.has(space, name),
        }
    }

    /// Whether the event names something without a typing.
    fn lacks(self, variables: &Variables, locals: &Scopes<()>, event: &Event) -> bool
        ensures { result ≡ spec.lacks (reached self.entry) (seen_variables variables.now)
            (scopes locals.now) event.now }
    {
        match event {
            Event::Use(space, name, _) => self.has(*space, name),
            Event::UseVariable(name, _) => {
                locals.find(name).is_none() && variables.lacks(name, false)
            }
            Event::UseValue(name, _) => {
                let function = self.lacks_function(name);
                locals.find(name).is_none() && variables.lacks(name, function)
            }
            Event::Define(_, _, _) | Event::DefineVariable(_, _) | Event::Open | Event::Close => {
                false
            }
        }
    }

    /// Whether one of the events names something without a typing.
    #[tactic(auto, unfolding(crate::specs::Untyped::leans))]
    fn leans(
        self,
        alloc: Global,
        variables: &Variables,
        events: &[Event],
    ) -> Result<bool, OutOfMemory>
        ensures { IfOk result (λ r. r ≡ spec.leans (reached self.entry)
            (seen_variables variables.now) events.now) }
    {
        let mut locals = Scopes::new(alloc);
        locals.open(alloc)?;
        let mut rest = events;
        while let Some((event, after)) = rest.split_first() {
            if self.lacks(variables, &locals, event) {
                return Ok(true);
            }
            take_in(alloc, &mut locals, event)?;
            rest = after;
        }
        Ok(false)
    }

    /// Whether an expression names something without a typing.
    pub fn expr_leans(
        self,
        alloc: Global,
        variables: &Variables,
        expr: &Expr,
    ) -> Result<bool, OutOfMemory>
        ensures { IfOk result (λ r. r ≡ spec.leans (reached self.entry)
            (seen_variables variables.now) (expressions.expr_events expr.now)) }
    {
        let mut events = Items::new(alloc);
        expr_events(alloc, expr, &mut events)?;
        self.leans(alloc, variables, events.as_slice())
    }

    /// Whether the condition of an arm names something without a typing.
    pub fn condition_leans(
        self,
        alloc: Global,
        variables: &Variables,
        condition: &Condition,
    ) -> Result<bool, OutOfMemory>
        ensures { IfOk result (λ r. r ≡ spec.leans (reached self.entry)
            (seen_variables variables.now) (statements.condition_events condition.now)) }
    {
        let mut events = Items::new(alloc);
        condition_events(alloc, condition, &mut events)?;
        self.leans(alloc, variables, events.as_slice())
    }

    /// Whether the head of a loop names something without a typing.
    pub fn head_leans(
        self,
        alloc: Global,
        variables: &Variables,
        head: &Head,
    ) -> Result<bool, OutOfMemory>
        ensures { IfOk result (λ r. r ≡ spec.leans (reached self.entry)
            (seen_variables variables.now) (statements.head_events head.now)) }
    {
        let mut events = Items::new(alloc);
        head_events(alloc, head, &mut events)?;
        self.leans(alloc, variables, events.as_slice())
    }

    /// Whether a statement of a rule, a method or a function names something without a typing.
    pub fn stmt_leans(
        self,
        alloc: Global,
        variables: &Variables,
        stmt: &Stmt,
    ) -> Result<bool, OutOfMemory>
        ensures { IfOk result (λ r. r ≡ spec.leans (reached self.entry)
            (seen_variables variables.now) (statements.stmt_events stmt.now)) }
    {
        let mut events = Items::new(alloc);
        stmt_events(alloc, stmt, &mut events)?;
        self.leans(alloc, variables, events.as_slice())
    }

    /// Whether the types of a method name something without a typing.
    pub fn method_header_leans(
        self,
        alloc: Global,
        variables: &Variables,
        method: &Method,
    ) -> Result<bool, OutOfMemory>
        ensures { IfOk result (λ r. r ≡ spec.leans (reached self.entry)
            (seen_variables variables.now) (spec.method_header_events method.now)) }
    {
        let mut events = Items::new(alloc);
        type_events(alloc, &method.result, &mut events)?;
        param_types(alloc, method.params.as_slice(), &mut events)?;
        self.leans(alloc, variables, events.as_slice())
    }

    /// Whether a statement of a module names something without a typing.
    pub fn module_stmt_leans(
        self,
        alloc: Global,
        variables: &Variables,
        stmt: &ModuleStmt,
    ) -> Result<bool, OutOfMemory>
        ensures { IfOk result (λ r. r ≡ spec.leans (reached self.entry)
            (seen_variables variables.now) (modules.module_stmt_events stmt.now)) }
    {
        let mut events = Items::new(alloc);
        module_stmt_events(alloc, stmt, &mut events)?;
        self.leans(alloc, variables, events.as_slice())
    }
}

impl Variables {
    /// No scope is open.
    pub fn new(alloc: Global) -> Variables
        ensures { seen_variables result ≡ [] }
    {
        Variables {
            typed: Scopes::new(alloc),
        }
    }

    /// Opens a scope inside the others.
    pub fn open(&mut self, alloc: Global) -> Result<(), OutOfMemory>
        ensures { OnOk result (seen_variables self.new ≡ opened (seen_variables self.old)) }
    {
        Ok(self.typed.open(alloc)?)
    }

    /// Closes the innermost scope.
    pub fn close(&mut self)
        ensures { seen_variables self.new ≡ closed (seen_variables self.old) }
    {
        self.typed.close();
    }

    /// Whether a name without `(` after it names something without a typing: the variable of that
    /// name where there is one, else a function, of which it is said whether it lacks one.
    fn lacks(&self, name: &Name, function: bool) -> bool
        ensures { result ≡ spec.is_untyped_value
            (find_in name.now (seen_variables self.now)) function }
    {
        match self.typed.find(name) {
            Some(typed) => !*typed,
            None => function,
        }
    }

    /// A variable more, where one is declared, with a typing or without one.
    pub fn declare(
        &mut self,
        alloc: Global,
        name: Option<&Name>,
        typed: bool,
    ) -> Result<(), OutOfMemory>
        ensures { OnOk result (seen_variables self.new
            ≡ spec.with_declared (option_map (λ n. n.now) name.entry) typed
            (seen_variables self.old)) }
    {
        if let Some(name) = name {
            let copy = Name::new(alloc, name.bytes())?;
            let _is_new = self.typed.define(copy, typed)?;
        }
        Ok(())
    }

    /// Parameters more, with a typing or without one.
    pub fn declare_params(
        &mut self,
        alloc: Global,
        params: &[Param],
        typed: bool,
    ) -> Result<(), OutOfMemory>
        ensures { OnOk result (seen_variables self.new
            ≡ spec.with_params typed params.now (seen_variables self.old)) }
    {
        let mut rest = params;
        while let Some((param, after)) = rest.split_first() {
            self.declare(alloc, Some(&param.name.name), typed)?;
            rest = after;
        }
        Ok(())
    }
}
