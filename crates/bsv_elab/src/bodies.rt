ghost use Rattle.std.specs.Prelude.{◌≡◌, [], ◌∷◌, ◌++◌, IfOk, OnOk, replicate};
ghost use Rattle.bsv_fail.specs.Given.{Gives};
ghost use Rattle.bsv_types.specs.Kinds.{kind};
ghost use Rattle.bsv_elab.specs.AtHand as spec;
ghost use Rattle.bsv_elab.specs.Attributes as asked;
ghost use Rattle.bsv_elab.specs.Becoming.{Becomes, Finishes, GivesDone, GivesInto};
ghost use Rattle.bsv_elab.specs.Building as building;

use crate::attributes::{add_marks, marks_of, no_marks};
use crate::builder::Builder;
use crate::making::{add_instance, instance, is_around, parameters, place_after, unbuilt};
use crate::names::Names;
use crate::places::{length_of, name_at, no_places, place_at, set_place, width_at};
use crate::refused::{Building, LimitKind, Refused};
use crate::state::{Marks, Scope, State};
use crate::values::{countable, weigh};
use crate::variables::{assign, bind, binding, cut, held, held_as, variables};
use bsv_bits::Name;
use bsv_fail::Fail;
use bsv_tree::{Binding, Built, Fault, Instance, Made, Static};
use bsv_types::{Expr, Head, Make, Maker, Module, ModuleBranch, ModuleStmt, Param, Ty};
use sqlite_items::{Boxed, Items};
use std::alloc::{AllocError, Global};
use std::mem::replace;

/// The most turns of a loop.
const MOST_TURNS: u32 = 4_096;

/// How deep modules nest.
pub(crate) const MOST_MODULES: u32 = 64;

/// A module is carried out inside those.
fn with_module(alloc: Global, around: &[u32], module: u32) -> Result<Items<u32>, AllocError>
    ensures { IfOk result (λ found. found ≡ around.now ++ «module» ∷ []) }
{
    let mut found = Items::from_slice(alloc, around)?;
    found.push(module)?;
    Ok(found)
}

/// A body that begins with these variables.
fn opening(alloc: Global, module: &Module, bindings: Items<Binding>) -> Result<Scope, AllocError>
    ensures { IfOk result (λ s. s ≡ spec.opening_scope «module».now bindings) }
{
    let widths = zeros(alloc, bindings.len())?;
    let levels = zeros(alloc, module.methods.len())?;
    Ok(Scope {
        bindings,
        widths,
        instances: Names::new(alloc),
        elements: Names::new(alloc),
        rules: Items::new(alloc),
        levels,
        marks: no_marks(alloc),
    })
}

/// So many zeros.
#[tactic(auto, using(crate::proofs::Repeats::repeats))]
fn zeros(alloc: Global, count: usize) -> Result<Items<u32>, AllocError>
    ensures { IfOk result (λ found. found ≡ replicate count 0) }
{
    let mut found = Items::new(alloc);
    for _more in 0..count {
        found.push(0)?;
    }
    Ok(found)
}

/// This body is carried out from here on, and no more the one that is given back.
fn enter(scope: Scope, state: &mut State) -> Scope
    ensures was { result ≡ state.old.scope }
    ensures entered { state.new ≡ (record { grown = state.old.grown; scope = scope }) }
{
    replace(&mut state.scope, scope)
}

/// The body of an instance with these parameters is carried out from here on, and no more the one
/// that is given back.
fn open(
    alloc: Global,
    module: &Module,
    bindings: Items<Binding>,
    state: &mut State,
) -> Result<Scope, AllocError>
    ensures was { IfOk result (λ outer. outer ≡ state.old.scope) }
    ensures opened { OnOk result
        (state.new ≡ building.opening «module».now bindings state.old.grown) }
{
    let scope = opening(alloc, module, bindings)?;
    Ok(enter(scope, state))
}

/// What the attributes of the module and of its rules ask for, after the end of its body.
fn own_marks(alloc: Global, module: &Module, state: &State) -> Building<Marks>
    ensures { Gives result (asked.marks_of «module».now state.now.scope.rules) }
{
    marks_of(alloc, module, state.scope.rules.as_slice())
}

/// The instance after the end of its body, and the marks of the instances inside it.
fn built_from(module: u32, scope: Scope) -> (Built, Marks)
    ensures { result ≡ (building.built «module» scope, scope.marks) }
{
    let Scope {
        bindings,
        rules,
        levels,
        marks,
        ..
    } = scope;
    let built = Built {
        module,
        bindings,
        rules,
        methods: levels,
    };
    (built, marks)
}

/// The instance after the end of its body, and its own marks before those of the instances inside it.
fn finished(module: u32, scope: Scope, own: Building<Marks>) -> Building<(Built, Marks)>
    ensures { Finishes «module» scope own result }
{
    let mut marks = own?;
    let (built, inside) = built_from(module, scope);
    add_marks(&mut marks, inside)?;
    Ok((built, marks))
}

impl<'a> Builder<'a> {
    fn params_of(self, module: u32) -> &'a [Param]
        ensures { result.now ≡ spec.params_of self.entry «module» }
    {
        match self.typed.modules.get(module as usize) {
            Some(found) => found.params.as_slice(),
            None => &[],
        }
    }

    /// The statements of the module, and what its attributes ask for after them.
    #[cycle(build)]
    #[tactic(auto, using(crate::proofs::Sizes::falls))]
    fn own_body(self, module: &Module, state: &mut State) -> Building<Marks>
        ensures { GivesInto result state.new
            (spec.own_body self.entry «module».now state.old) }
    {
        self.run(module.body.as_slice(), state)?;
        own_marks(self.alloc, module, state)
    }

    /// The body of the module, in an instance with these parameters.
    #[cycle(build)]
    #[tactic(auto, using(crate::proofs::Sizes::falls))]
    fn body_of(
        self,
        module: &Module,
        bindings: Items<Binding>,
        state: &mut State,
    ) -> Building<(Built, Marks)>
        ensures { GivesDone result state.new state.old
            (spec.body_of self.entry «module».now bindings state.old.grown) }
    {
        let outer = open(self.alloc, module, bindings, state)?;
        let own = self.own_body(module, state);
        let inner = enter(outer, state);
        finished(self.module, inner, own)
    }

    /// The body of this module, in an instance with these parameters.
    #[cycle(build)]
    #[tactic(auto, using(crate::proofs::Sizes::falls))]
    fn body(self, bindings: Items<Binding>, state: &mut State) -> Building<(Built, Marks)>
        ensures { GivesDone result state.new state.old
            (spec.body self.entry bindings state.old.grown) }
    {
        match self.here_module() {
            Some(module) => self.body_of(module, bindings, state),
            None => Err(Fail::Fault(self.static_fault())),
        }
    }

    /// The body of a module inside this one.
    #[cycle(build)]
    #[tactic(auto, using(crate::proofs::Sizes::falls, crate::proofs::Nodes::inner_bodies), unfolding(crate::specs::Building::body_at, crate::specs::Building::most_modules))]
    pub(crate) fn inner_body(
        self,
        module: u32,
        path: &[u8],
        bindings: Items<Binding>,
        state: &mut State,
    ) -> Building<(Built, Marks)>
        ensures { GivesDone result state.new state.old
            (spec.inner_body self.entry «module» path.now bindings state.old.grown) }
    {
        if self.depth == 0 {
            let most = u64::from(MOST_MODULES);
            return Err(Fail::Fault(Refused::Limit(LimitKind::Modules, most)));
        }
        let around = with_module(self.alloc, self.around, module)?;
        let inner = Builder {
            alloc: self.alloc,
            typed: self.typed,
            module,
            path,
            around: around.as_slice(),
            depth: self.depth - 1,
            first: self.first,
        };
        inner.body(bindings, state)
    }

    /// An instance of a module with this path and number.
    #[cycle(build)]
    #[tactic(auto, using(crate::proofs::Sizes::falls))]
    fn numbered_child(
        self,
        path: Name,
        module: u32,
        arguments: &[Static],
        number: u32,
        state: &mut State,
    ) -> Building<u32>
        ensures { GivesInto result state.new (spec.numbered_child self.entry path «module»
            arguments.now number state.old) }
    {
        let bindings = parameters(self.alloc, self.params_of(module), arguments)?;
        let own = instance(self.alloc, path.bytes(), unbuilt(self.alloc, module))?;
        add_instance(own, &mut state.grown)?;
        let (built, marks) = self.inner_body(module, path.bytes(), bindings, state)?;
        let made = Made::Module(built);
        place_after(number, Instance { path, made }, marks, state)?;
        Ok(number)
    }

    /// An instance of a module with this path, and its number.
    #[cycle(build)]
    #[tactic(auto, using(crate::proofs::Sizes::falls))]
    fn named_child(
        self,
        path: Name,
        module: u32,
        arguments: &[Static],
        state: &mut State,
    ) -> Building<u32>
        ensures { GivesInto result state.new (spec.named_child self.entry path «module»
            arguments.now state.old) }
    {
        let number = countable(state.grown.instances.len())?;
        self.numbered_child(path, module, arguments, number, state)
    }

    /// An instance of a module, and its number.
    #[cycle(build)]
    #[tactic(auto, using(crate::proofs::Sizes::falls), unfolding(crate::specs::Making::child))]
    fn child(
        self,
        name: &[u8],
        module: u32,
        arguments: &[Static],
        state: &mut State,
    ) -> Building<u32>
        ensures { GivesInto result state.new
            (spec.child self.entry name.now «module» arguments.now state.old) }
    {
        if is_around(module, self.around) {
            return Err(Fail::Fault(Refused::Recursion(module)));
        }
        let path = self.named_instance(name, state)?;
        self.named_child(path, module, arguments, state)
    }

    /// An instance by its maker, and its number.
    #[cycle(build)]
    #[tactic(auto, using(crate::proofs::Sizes::falls))]
    fn made_by(
        self,
        width: u32,
        name: &[u8],
        maker: Maker,
        arguments: &[Static],
        state: &mut State,
    ) -> Building<u32>
        ensures { GivesInto result state.new
            (spec.made_by self.entry width name.now maker arguments.now state.old) }
    {
        match maker {
            Maker::Given(given) => self.primitive(width, name, given, arguments, state),
            Maker::Module(module) => self.child(name, module, arguments, state),
        }
    }

    /// An instance, and its number.
    #[cycle(build)]
    #[tactic(auto, using(crate::proofs::Sizes::falls), unfolding(crate::specs::Making::make))]
    fn make(self, width: u32, name: &[u8], make: &Make, state: &mut State) -> Building<u32>
        ensures { GivesInto result state.new
            (spec.make self.entry width name.now make.now state.old) }
    {
        let arguments = self.arguments(make.arguments.as_slice(), state)?;
        self.made_by(width, name, make.maker, arguments.as_slice(), state)
    }

    /// `T x <- make`
    #[cycle(build)]
    #[tactic(auto, using(crate::proofs::Sizes::falls), unfolding(crate::specs::Bodies::one_instance))]
    fn one_instance(self, width: u32, name: &[u8], make: &Make, state: &mut State) -> Building<()>
        ensures { Becomes result state.new
            (spec.one_instance self.entry width name.now make.now state.old) }
    {
        let number = self.make(width, name, make, state)?;
        let variable = binding(self.alloc, name, Static::Place(number))?;
        Ok(bind(variable, 0, state)?)
    }

    /// An array of so many places.
    fn array_of(self, width: u32, name: &[u8], length: i64, state: &mut State) -> Building<()>
        ensures { Becomes result state.new
            (spec.array_of self.entry width name.now length state.old) }
    {
        let count = length_of(self.static_fault(), length)?;
        let places = no_places(self.alloc, count)?;
        let variable = binding(self.alloc, name, places)?;
        Ok(bind(variable, width, state)?)
    }

    /// `T r[n]`
    #[tactic(auto, unfolding(crate::specs::Bodies::array))]
    fn array(self, width: u32, name: &[u8], e: &Expr, state: &mut State) -> Building<()>
        ensures { Becomes result state.new
            (spec.array self.entry width name.now e.now state.old) }
    {
        let length = self.number(e, state)?;
        self.array_of(width, name, length, state)
    }

    /// `r[i] <- make` at a place that there is, with the name and the width of the array.
    #[cycle(build)]
    #[tactic(auto, using(crate::proofs::Sizes::falls))]
    fn placed_from(
        self,
        level: usize,
        width: u32,
        name: &[u8],
        at: usize,
        make: &Make,
        state: &mut State,
    ) -> Building<()>
        ensures { Becomes result state.new
            (spec.placed_from self.entry level width name.now at make.now state.old) }
    {
        let number = self.make(width, name, make, state)?;
        Ok(set_place(self.alloc, level, at, number, state)?)
    }

    /// `r[i] <- make` at a place: the instance has the name of the array.
    #[cycle(build)]
    #[tactic(auto, using(crate::proofs::Sizes::falls))]
    fn place_from(self, level: u32, index: i64, make: &Make, state: &mut State) -> Building<()>
        ensures { Becomes result state.new
            (spec.place_from self.entry level index make.now state.old) }
    {
        let level = level as usize;
        let at = place_at(self.static_fault(), level, index, state)?;
        let name = name_at(self.alloc, level, state)?;
        let width = width_at(level, state);
        self.placed_from(level, width, name.bytes(), at, make, state)
    }

    /// `r[i] <- make`
    #[cycle(build)]
    #[tactic(auto, using(crate::proofs::Sizes::falls), unfolding(crate::specs::Bodies::one_place))]
    fn one_place(self, level: u32, e: &Expr, make: &Make, state: &mut State) -> Building<()>
        ensures { Becomes result state.new
            (spec.one_place self.entry level e.now make.now state.old) }
    {
        let index = self.number(e, state)?;
        self.place_from(level, index, make, state)
    }

    /// A variable with its first value.
    fn declare(self, ty: &Ty, name: &[u8], e: &Expr, state: &mut State) -> Building<()>
        ensures { Becomes result state.new
            (spec.declare self.entry (kind ty.now) name.now e.now state.old) }
    {
        let constant = self.constant(e, state)?;
        let variable = binding(self.alloc, name, held_as(ty, constant))?;
        Ok(bind(variable, 0, state)?)
    }

    /// `v = e`
    fn set(self, level: u32, e: &Expr, state: &mut State) -> Building<()>
        ensures { Becomes result state.new (spec.set self.entry level e.now state.old) }
    {
        let constant = self.constant(e, state)?;
        Ok(assign(self.alloc, level, constant, state)?)
    }

    /// Statements, one after the other.
    #[cycle(build)]
    #[tactic(auto, using(crate::proofs::Sizes::falls), unfolding(crate::specs::Bodies::run))]
    fn run(self, stmts: &[ModuleStmt], state: &mut State) -> Building<()>
        ensures { Becomes result state.new (spec.run self.entry stmts.now state.old) }
    {
        let mut rest = stmts;
        while let Some((stmt, after)) = rest.split_first() {
            self.stmt(stmt, state)?;
            rest = after;
        }
        Ok(())
    }

    /// Statements, with which their variables end.
    #[cycle(build)]
    #[tactic(auto, using(crate::proofs::Sizes::falls), unfolding(crate::specs::Statics::inside))]
    fn block(self, stmts: &[ModuleStmt], state: &mut State) -> Building<()>
        ensures { Becomes result state.new (spec.block self.entry stmts.now state.old) }
    {
        let before = variables(state);
        self.run(stmts, state)?;
        cut(self.alloc, before, state);
        Ok(())
    }

    /// A statement, with which its variables end.
    #[cycle(build)]
    #[tactic(auto, using(crate::proofs::Sizes::falls), unfolding(crate::specs::Statics::inside))]
    fn arm(self, stmt: &ModuleStmt, state: &mut State) -> Building<()>
        ensures { Becomes result state.new (spec.arm self.entry stmt.now state.old) }
    {
        let before = variables(state);
        self.stmt(stmt, state)?;
        cut(self.alloc, before, state);
        Ok(())
    }

    /// The arm after a last `else`.
    #[cycle(build)]
    #[tactic(auto, using(crate::proofs::Sizes::falls))]
    fn otherwise(self, last: &Option<Boxed<ModuleStmt>>, state: &mut State) -> Building<()>
        ensures { Becomes result state.new (spec.otherwise self.entry last.now state.old) }
    {
        match last {
            Some(stmt) => self.arm(stmt.get(), state),
            None => Ok(()),
        }
    }

    /// The first arm whose condition is True.
    #[cycle(build)]
    #[tactic(auto, using(crate::proofs::Sizes::falls), unfolding(crate::specs::Bodies::chain, crate::specs::Bodies::branch, crate::specs::Bodies::stmt))]
    fn chain(
        self,
        last: &Option<Boxed<ModuleStmt>>,
        branches: &[ModuleBranch],
        state: &mut State,
    ) -> Building<()>
        ensures { Becomes result state.new
            (spec.chain self.entry last.now branches.now state.old) }
    {
        let mut rest = branches;
        while let Some((branch, after)) = rest.split_first() {
            if self.truth(&branch.condition, state)? {
                return self.arm(&branch.arm, state);
            }
            rest = after;
        }
        self.otherwise(last, state)
    }

    /// One turn of a loop, and the step of its head.
    #[cycle(build)]
    #[tactic(auto, using(crate::proofs::Sizes::falls), unfolding(crate::specs::Bodies::turn))]
    fn turn(self, head: &Head, stmt: &ModuleStmt, state: &mut State) -> Building<()>
        ensures { Becomes result state.new (spec.turn self.entry head.now stmt.now state.old) }
    {
        self.arm(stmt, state)?;
        self.set(head.stepped, &head.step, state)
    }

    /// The turns of a loop.
    #[cycle(build)]
    #[tactic(auto, using(crate::proofs::Sizes::falls, crate::proofs::Turns::loops))]
    fn turns(self, head: &Head, stmt: &ModuleStmt, state: &mut State) -> Building<()>
        ensures { Becomes result state.new
            (spec.turns self.entry 4096 head.now stmt.now state.old) }
    {
        for _turn in 0..MOST_TURNS {
            if !self.truth(&head.condition, state)? {
                return Ok(());
            }
            self.turn(head, stmt, state)?;
        }
        if self.truth(&head.condition, state)? {
            return Err(Fail::Fault(Refused::Carried(Fault::Loop(self.module))));
        }
        Ok(())
    }

    /// The variable of a loop, and its turns.
    #[cycle(build)]
    #[tactic(auto, using(crate::proofs::Sizes::falls), unfolding(crate::specs::Bodies::most_turns))]
    fn first_and_turns(self, head: &Head, stmt: &ModuleStmt, state: &mut State) -> Building<()>
        ensures { Becomes result state.new
            (spec.first_and_turns self.entry head.now stmt.now state.old) }
    {
        let first = self.constant(&head.first, state)?;
        let variable = binding(self.alloc, head.variable.bytes(), held(first))?;
        bind(variable, 0, state)?;
        self.turns(head, stmt, state)
    }

    /// A loop, with which its variable ends.
    #[cycle(build)]
    #[tactic(auto, using(crate::proofs::Sizes::falls), unfolding(crate::specs::Bodies::looped, crate::specs::Statics::inside))]
    fn looped(self, head: &Head, stmt: &ModuleStmt, state: &mut State) -> Building<()>
        ensures { Becomes result state.new (spec.looped self.entry head.now stmt.now state.old) }
    {
        let before = variables(state);
        self.first_and_turns(head, stmt, state)?;
        cut(self.alloc, before, state);
        Ok(())
    }

    /// A statement, which weighs before what it holds.
    #[cycle(build)]
    #[tactic(auto, using(crate::proofs::Sizes::falls, crate::proofs::Nodes::stmts), unfolding(crate::specs::Bodies::stmt, crate::specs::Bodies::branch))]
    fn stmt(self, stmt: &ModuleStmt, state: &mut State) -> Building<()>
        ensures { Becomes result state.new (spec.stmt self.entry stmt.now state.old) }
    {
        weigh(1, state)?;
        match stmt {
            ModuleStmt::Instance(ty, name, make) => {
                self.one_instance(self.width_in(ty), name.bytes(), make, state)
            }
            ModuleStmt::Array(ty, name, e) => {
                self.array(self.width_in(ty), name.bytes(), e, state)
            }
            ModuleStmt::Place(level, e, make) => self.one_place(*level, e, make, state),
            ModuleStmt::Declare(ty, name, e) => self.declare(ty, name.bytes(), e, state),
            ModuleStmt::Assign(level, e) => self.set(*level, e, state),
            ModuleStmt::Block(stmts) => self.block(stmts.as_slice(), state),
            ModuleStmt::If(branches, last) => self.chain(last, branches.as_slice(), state),
            ModuleStmt::For(head, stmt) => self.looped(head, stmt.get(), state),
            ModuleStmt::Rule(number) => self.rule(*number, state),
            ModuleStmt::Method(number) => self.method(*number, state),
        }
    }
}
