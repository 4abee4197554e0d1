ghost use Rattle.std.specs.Prelude.{◌≡◌};
ghost use Rattle.bsv_fail.specs.Given.{Gives};
ghost use Rattle.bsv_tree.specs.carrying.Carrying as carrying;
ghost use Rattle.bsv_carry.specs.AtHand as spec;

use crate::carrier::Carrier;
use bsv_tree::{Binding, Count, Counted, Got, Instance, Local, Valued, Work, no_steps, parameters};
use bsv_types::{Expr, Method, Place, Stmt, Typed};
use std::alloc::Global;

/// What is at hand where text is carried out.
#[derive(Clone, Copy)]
pub struct Context<'a> {
    pub alloc: Global,
    pub typed: &'a Typed,
    /// The instances that were made so far.
    pub instances: &'a [Instance],
    /// The module whose text is carried out, by its place.
    pub module: u32,
    /// The variables of the module that are in scope.
    pub bindings: &'a [Binding],
}

impl<'a> Context<'a> {
    /// The same, with so many calls in calls.
    #[tactic(auto, unfolding(bsv_tree::specs::carrying::Carrying::most_calls))]
    fn carrier(self) -> Carrier<'a>
        ensures site { spec.site result ≡ spec.text self.entry }
        ensures depth { result.depth ≡ carrying.most_calls }
    {
        Carrier {
            alloc: self.alloc,
            typed: self.typed,
            instances: self.instances,
            module: self.module,
            bindings: self.bindings,
            depth: 64,
        }
    }

    /// The same for the body of a module, in which nothing may be called.
    fn body_carrier(self) -> Carrier<'a>
        ensures site { spec.site result ≡ carrying.nothing_called (spec.text self.entry) }
        ensures depth { result.depth ≡ carrying.most_calls }
    {
        Carrier {
            instances: &[],
            ..self.carrier()
        }
    }

    /// An expression of a module's body. An Integer is static.
    pub fn expr(self, e: &Expr, locals: &[Local], work: Work) -> Valued
        ensures { Gives result
            (carrying.module_expr (spec.text self.entry) e.now locals.now work) }
    {
        self.body_carrier().expr(e, locals, work)
    }

    /// The instance that a place in a module's body names.
    pub fn place(self, place: &Place, locals: &[Local], count: Count) -> Counted<u32>
        ensures { Gives result
            (carrying.module_place (spec.text self.entry) place.now locals.now count) }
    {
        self.body_carrier().place(place, locals, count)
    }

    /// A rule: its condition has to hold, and comes before its body.
    #[tactic(auto, unfolding(bsv_tree::specs::carrying::Carrying::rule))]
    pub fn rule(self, condition: &Option<Expr>, body: &[Stmt], work: Work) -> Got<Work>
        ensures { Gives result
            (carrying.rule (spec.text self.entry) condition.now body.now work) }
    {
        self.carrier().rule(condition, body, work)
    }

    /// A method of the top, whose arguments are its first values, and what it gives.
    #[tactic(auto, unfolding(bsv_tree::specs::carrying::Carrying::top_method))]
    pub fn top_method(self, method: &Method, weight: u64) -> Valued
        ensures { Gives result
            (carrying.top_method (spec.text self.entry) method.now weight) }
    {
        let count = Count { weight, slots: 0 };
        let (values, count) = parameters(self.alloc, method.params.as_slice(), count)?;
        let work = no_steps(self.alloc, count);
        self.carrier().top_method(method, values.as_slice(), work)
    }
}
