ghost use Rattle.bsv_fail.specs.Given.{Gives};
ghost use Rattle.bsv_carry.specs.AtHand as spec;

use crate::carrier::Carrier;
use bsv_fail::Fail;
use bsv_tree::{
    Arm, Choice, Count, Counted, Got, Local, Value, Valued, Work, after_arm, at_count, counted,
    is_static, is_true, loosened, no_steps, tick, value_choice, with_value_arm,
};
use bsv_types::{Expr, Place, Ty};
use sqlite_items::Items;

impl Carrier<'_> {
    /// An expression. An Integer is static.
    #[cycle(carry)]
    #[tactic(auto, using(crate::proofs::Nodes::exprs))]
    pub(crate) fn expr(self, e: &Expr, locals: &[Local], work: Work) -> Valued
        ensures { Gives result (spec.expr self.entry e.now locals.now work) }
    {
        match e {
            Expr::Literal(ty, number) => {
                let work = counted(work, 1)?;
                self.settled(ty, self.literal(ty, *number, work)?)
            }
            Expr::Variable(ty, level) => {
                let work = counted(work, 1)?;
                let value = self.variable(*level, locals)?;
                self.settled(ty, (value, work))
            }
            Expr::Apply(ty, ops, operands) => {
                let found = self.apply(ty, ops.as_slice(), operands.as_slice(), locals, work)?;
                self.settled(ty, found)
            }
            Expr::Call(ty, number, arguments) => {
                let found = self.function(*number, arguments.as_slice(), locals, work)?;
                self.settled(ty, found)
            }
            Expr::Method(ty, place, number, arguments) => {
                let found = self.method(place, *number, arguments.as_slice(), locals, work)?;
                self.settled(ty, found)
            }
            Expr::Choice(ty, conditions, values) => {
                let found = self.choice(conditions.as_slice(), values.as_slice(), locals, work)?;
                self.settled(ty, found)
            }
        }
    }

    /// Expressions, one after the other.
    #[cycle(carry)]
    #[tactic(auto, unfolding(bsv_tree::specs::carrying::Carrying::all, bsv_tree::specs::carrying::Carrying::all_from))]
    pub(crate) fn all(
        self,
        items: &[Expr],
        locals: &[Local],
        work: Work,
    ) -> Got<(Items<Value>, Work)>
        ensures { Gives result (spec.all self.entry items.now locals.now work) }
    {
        let mut values = Items::new(self.alloc);
        let mut work = work;
        let mut rest = items;
        while let Some((item, after)) = rest.split_first() {
            let (value, behind) = self.expr(item, locals, work)?;
            values.push(value)?;
            work = behind;
            rest = after;
        }
        Ok((values, work))
    }

    /// A call of a function.
    #[cycle(carry)]
    #[tactic(auto, unfolding(bsv_tree::specs::carrying::Carrying::function))]
    fn function(self, number: u32, arguments: &[Expr], locals: &[Local], work: Work) -> Valued
        ensures { Gives result
            (spec.function self.entry number arguments.now locals.now work) }
    {
        let work = counted(work, 1)?;
        let (values, work) = self.all(arguments, locals, work)?;
        let (value, work) = self.function_at(number, values.as_slice(), work)?;
        Ok((loosened(values.as_slice(), value), work))
    }

    /// What a condition of `?:` asks.
    #[cycle(carry)]
    #[tactic(auto, unfolding(bsv_tree::specs::carrying::Carrying::value_asked))]
    fn value_asked(self, condition: &Expr, locals: &[Local], count: Count) -> Valued
        ensures { Gives result (spec.value_asked self.entry condition.now locals.now count) }
    {
        let count = tick(count, 1)?;
        self.expr(condition, locals, no_steps(self.alloc, count))
    }

    /// The arms after a condition that is not static and True.
    #[cycle(carry)]
    #[tactic(auto, unfolding(bsv_tree::specs::carrying::Carrying::value_kept))]
    fn value_kept(
        self,
        arms: Items<Arm>,
        before: Count,
        test: Value,
        asked: Work,
        value: &Expr,
        locals: &[Local],
    ) -> Counted<Items<Arm>>
        ensures { Gives result
            (spec.value_kept self.entry arms before (test, asked) value.now locals.now) }
    {
        let count = asked.count;
        if is_static(&test) {
            return Ok((arms, after_arm(before, count)));
        }
        let (found, body) = self.expr(value, locals, no_steps(self.alloc, count))?;
        let behind = after_arm(count, body.count);
        let arms = with_value_arm(self.alloc, arms, test, asked, found, body)?;
        Ok((arms, behind))
    }

    /// The last value of `?:`, which is all there is where no arm is left.
    #[cycle(carry)]
    #[tactic(auto, unfolding(bsv_tree::specs::carrying::Carrying::last_value))]
    fn last_value(
        self,
        work: Work,
        arms: Items<Arm>,
        value: &Expr,
        locals: &[Local],
        count: Count,
    ) -> Valued
        ensures { Gives result
            (spec.last_value self.entry work arms value.now locals.now count) }
    {
        if arms.is_empty() {
            return self.expr(value, locals, at_count(work, count));
        }
        let (found, behind) = self.expr(value, locals, no_steps(self.alloc, count))?;
        value_choice(self.alloc, work, arms, found, behind)
    }

    /// `a ? b : c ? d : e`
    #[cycle(carry)]
    #[tactic(auto, unfolding(bsv_tree::specs::carrying::Carrying::choice, bsv_tree::specs::carrying::Carrying::choice_from))]
    fn choice(self, conditions: &[Expr], values: &[Expr], locals: &[Local], work: Work) -> Valued
        ensures { Gives result
            (spec.choice self.entry conditions.now values.now locals.now work) }
    {
        let mut arms = Items::new(self.alloc);
        let mut count = work.count;
        let mut left = conditions;
        let mut rest = values;
        while let (Some((condition, more)), Some((value, after))) = (
            left.split_first(),
            rest.split_first(),
        ) {
            let (test, asked) = self.value_asked(condition, locals, count)?;
            if is_true(&test) {
                let count = after_arm(count, asked.count);
                return self.last_value(work, arms, value, locals, count);
            }
            let (kept, behind) = self.value_kept(arms, count, test, asked, value, locals)?;
            arms = kept;
            count = behind;
            left = more;
            rest = after;
        }
        match rest.split_first() {
            None => Err(Fail::Fault(self.static_fault())),
            Some((last, _)) => self.last_value(work, arms, last, locals, count),
        }
    }

    /// The instance that a place names.
    #[cycle(carry)]
    #[tactic(auto, unfolding(bsv_tree::specs::carrying::Carrying::expression, bsv_tree::specs::carrying::Carrying::place))]
    pub(crate) fn place(self, place: &Place, locals: &[Local], count: Count) -> Counted<u32>
        ensures { Gives result (spec.place self.entry place.now locals.now count) }
    {
        match &place.index {
            None => Ok((self.placed(place.level)?, count)),
            Some(index) => {
                let (value, asked) = self.expr(index.get(), locals, no_steps(self.alloc, count))?;
                let at = self.index_of(value)?;
                Ok((
                    self.placed_at(place.level, at)?,
                    after_arm(count, asked.count),
                ))
            }
        }
    }
}
