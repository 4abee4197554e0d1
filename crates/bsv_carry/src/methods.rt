ghost use Rattle.bsv_fail.specs.Given.{Gives};
ghost use Rattle.bsv_carry.specs.AtHand as spec;

use crate::carrier::Carrier;
use bsv_design::Kind;
use bsv_fail::Fail;
use bsv_tree::{
    Atom, Built, Count, Got, Local, Made, MethodPlace, Step, Valued, Work, at_count, atoms,
    counted, give, no_steps, opened, part_method_number, truth, with_step,
};
use bsv_types::{Expr, PartTy, Place};
use sqlite_items::Items;

impl<'a> Carrier<'a> {
    /// The method of a primitive that is called, its arguments, and the steps of these.
    #[cycle(carry)]
    #[tactic(auto, unfolding(bsv_tree::specs::carrying::Carrying::primitive_call))]
    fn primitive_call(
        self,
        instance: u32,
        part: PartTy,
        kind: Kind,
        number: u32,
        arguments: &[Expr],
        locals: &[Local],
        count: Count,
    ) -> Got<(MethodPlace, Items<Atom>, Work)>
        ensures { Gives result (spec.primitive_call self.entry instance part kind number
            arguments.now locals.now count) }
    {
        let (values, asked) = self.all(arguments, locals, no_steps(self.alloc, count))?;
        match part_method_number(part, kind, number) {
            None => Err(Fail::Fault(self.static_fault())),
            Some(method) => {
                let atoms = atoms(self.alloc, values.as_slice())?;
                Ok((MethodPlace { instance, method }, atoms, asked))
            }
        }
    }

    /// A call of a method of a module.
    #[cycle(carry)]
    #[tactic(auto, unfolding(bsv_tree::specs::carrying::Carrying::module_call))]
    fn module_call(
        self,
        instance: u32,
        built: &'a Built,
        number: u32,
        arguments: &[Expr],
        locals: &[Local],
        work: Work,
    ) -> Valued
        ensures { Gives result (spec.module_call self.entry instance built.now number
            arguments.now locals.now work) }
    {
        let (values, work) = self.all(arguments, locals, work)?;
        let (value, work) = self.user_method(instance, built, number, values.as_slice(), work)?;
        Ok((opened(value), work))
    }

    /// A call of a value method of an instance.
    #[cycle(carry)]
    #[tactic(auto, unfolding(bsv_tree::specs::carrying::Carrying::value_of))]
    fn value_of(
        self,
        instance: u32,
        number: u32,
        arguments: &[Expr],
        locals: &[Local],
        work: Work,
    ) -> Valued
        ensures { Gives result
            (spec.value_of self.entry instance number arguments.now locals.now work) }
    {
        match self.instances.get(instance as usize) {
            None => Err(Fail::Fault(self.static_fault())),
            Some(found) => match &found.made {
                Made::Primitive(part, kind) => {
                    let (method, atoms, asked) = self.primitive_call(
                        instance, *part, *kind, number, arguments, locals, work.count,
                    )?;
                    let step = Step::Read(method, atoms, asked.steps);
                    give(at_count(work, asked.count), step)
                }
                Made::Module(built) => {
                    self.module_call(instance, built, number, arguments, locals, work)
                }
            },
        }
    }

    /// A call of a value method.
    #[cycle(carry)]
    #[tactic(auto, unfolding(bsv_tree::specs::carrying::Carrying::method))]
    pub(crate) fn method(
        self,
        place: &Place,
        number: u32,
        arguments: &[Expr],
        locals: &[Local],
        work: Work,
    ) -> Valued
        ensures { Gives result
            (spec.method self.entry place.now number arguments.now locals.now work) }
    {
        let work = counted(work, 1)?;
        let (instance, count) = self.place(place, locals, work.count)?;
        self.value_of(instance, number, arguments, locals, at_count(work, count))
    }

    /// A call of an action method of an instance, and what it gives.
    #[cycle(carry)]
    #[tactic(auto, unfolding(bsv_tree::specs::carrying::Carrying::act_of))]
    fn act_of(
        self,
        instance: u32,
        number: u32,
        arguments: &[Expr],
        locals: &[Local],
        work: Work,
    ) -> Valued
        ensures { Gives result
            (spec.act_of self.entry instance number arguments.now locals.now work) }
    {
        match self.instances.get(instance as usize) {
            None => Err(Fail::Fault(self.static_fault())),
            Some(found) => match &found.made {
                Made::Primitive(part, kind) => {
                    let (method, atoms, asked) = self.primitive_call(
                        instance, *part, *kind, number, arguments, locals, work.count,
                    )?;
                    let step = Step::Act(method, atoms, asked.steps);
                    Ok((truth(false), with_step(work, step, asked.count)?))
                }
                Made::Module(built) => {
                    self.module_call(instance, built, number, arguments, locals, work)
                }
            },
        }
    }

    /// A call of an action method, and what it gives.
    #[cycle(carry)]
    #[tactic(auto, unfolding(bsv_tree::specs::carrying::Carrying::act))]
    pub(crate) fn act(
        self,
        place: &Place,
        number: u32,
        arguments: &[Expr],
        locals: &[Local],
        work: Work,
    ) -> Valued
        ensures { Gives result
            (spec.act self.entry place.now number arguments.now locals.now work) }
    {
        let work = counted(work, 1)?;
        let (instance, count) = self.place(place, locals, work.count)?;
        self.act_of(instance, number, arguments, locals, at_count(work, count))
    }
}
