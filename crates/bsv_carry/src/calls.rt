ghost use Rattle.bsv_fail.specs.Given.{Gives};
ghost use Rattle.bsv_carry.specs.AtHand as spec;

use crate::carrier::Carrier;
use bsv_fail::Fail;
use bsv_tree::{
    Built, Fault, Got, MethodPlace, Value, Valued, Work, arguments, is_integer, needed, no_steps,
    no_variables, seen,
};
use bsv_types::{Body, Expr, Method, Stmt};

impl<'a> Carrier<'a> {
    /// A condition, which has to hold.
    #[cycle(carry)]
    #[tactic(auto, unfolding(bsv_tree::specs::carrying::Carrying::asking))]
    fn asking(self, name: Option<MethodPlace>, condition: &Option<Expr>, work: Work) -> Got<Work>
        ensures { Gives result (spec.asking self.entry name condition.now work) }
    {
        match condition {
            None => Ok(work),
            Some(condition) => {
                let locals = no_variables(self.alloc, false)?;
                let asked = no_steps(self.alloc, work.count);
                let (value, asked) = self.expr(condition, locals.as_slice(), asked)?;
                Ok(needed(name, work, value, asked)?)
            }
        }
    }

    /// A body, and what it returns.
    #[cycle(carry)]
    #[tactic(auto, unfolding(bsv_tree::specs::carrying::Carrying::giving))]
    fn giving(self, body: &Body, integer: bool, values: &[Value], work: Work) -> Valued
        ensures { Gives result (spec.giving self.entry body.now integer values.now work) }
    {
        let locals = arguments(self.alloc, integer, values)?;
        match body {
            Body::Value(value) => self.expr(value, locals.as_slice(), work),
            Body::Statements(stmts) => {
                let (locals, work) = self.run(stmts.as_slice(), locals, work)?;
                self.returned(locals.as_slice(), work)
            }
        }
    }

    /// A call of a function, which sees its parameters alone.
    #[cycle(carry)]
    #[tactic(auto, using(crate::proofs::Depths::falls, crate::proofs::Nodes::calls), unfolding(bsv_tree::specs::carrying::Calls::function_at, bsv_tree::specs::carrying::Carrying::call_at, bsv_tree::specs::carrying::Carrying::called, bsv_tree::specs::carrying::Carrying::asking))]
    pub(crate) fn function_at(self, number: u32, values: &[Value], work: Work) -> Valued
        ensures { Gives result (spec.function_at self.entry number values.now work) }
    {
        match self.typed.functions.get(number as usize) {
            None => Err(Fail::Fault(self.static_fault())),
            Some(found) => {
                if self.depth == 0 {
                    return Err(Fail::Fault(Fault::Calls));
                }
                let inner = Carrier {
                    bindings: &[],
                    depth: self.depth - 1,
                    ..self
                };
                inner.giving(&found.body, is_integer(&found.result), values, work)
            }
        }
    }

    /// A method of a module's instance.
    #[cycle(carry)]
    #[tactic(auto, unfolding(bsv_tree::specs::carrying::Carrying::called))]
    fn entered(self, name: MethodPlace, method: &Method, values: &[Value], work: Work) -> Valued
        ensures { Gives result (spec.entered self.entry name method.now values.now work) }
    {
        let work = self.asking(Some(name), &method.condition, work)?;
        self.giving(&method.body, false, values, work)
    }

    /// A call of a method of a module's instance, which sees the variables that come before it.
    #[cycle(carry)]
    #[tactic(auto, using(crate::proofs::Depths::falls, crate::proofs::Nodes::calls), unfolding(bsv_tree::specs::carrying::Calls::user_method, bsv_tree::specs::carrying::Carrying::call_at))]
    pub(crate) fn user_method(
        self,
        instance: u32,
        built: &'a Built,
        number: u32,
        values: &[Value],
        work: Work,
    ) -> Valued
        ensures { Gives result
            (spec.user_method self.entry instance built.now number values.now work) }
    {
        match self.typed.modules.get(built.module as usize) {
            None => Err(Fail::Fault(self.static_fault())),
            Some(module) => {
                let at = number as usize;
                match (module.methods.get(at), built.methods.get(at)) {
                    (Some(method), Some(levels)) => {
                        if self.depth == 0 {
                            return Err(Fail::Fault(Fault::Calls));
                        }
                        let inner = Carrier {
                            module: built.module,
                            bindings: seen(built.bindings.as_slice(), *levels as usize),
                            depth: self.depth - 1,
                            ..self
                        };
                        let name = MethodPlace {
                            instance,
                            method: number,
                        };
                        inner.entered(name, method, values, work)
                    }
                    _ => Err(Fail::Fault(self.static_fault())),
                }
            }
        }
    }

    /// A rule: its condition has to hold, and comes before its body.
    pub(crate) fn rule(self, condition: &Option<Expr>, body: &[Stmt], work: Work) -> Got<Work>
        ensures { Gives result (spec.rule self.entry condition.now body.now work) }
    {
        let work = self.asking(None, condition, work)?;
        let locals = no_variables(self.alloc, false)?;
        let (_locals, work) = self.run(body, locals, work)?;
        Ok(work)
    }

    /// A method of the top with the values of its parameters.
    pub(crate) fn top_method(self, method: &Method, values: &[Value], work: Work) -> Valued
        ensures { Gives result (spec.top_method self.entry method.now values.now work) }
    {
        let work = self.asking(None, &method.condition, work)?;
        self.giving(&method.body, false, values, work)
    }
}
