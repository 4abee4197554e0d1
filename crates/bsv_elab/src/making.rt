ghost use Rattle.std.specs.Prelude.{◌≡◌, ◌<◌, IfOk, OnOk};
ghost use Rattle.bsv_fail.specs.Given.{Gives};
ghost use Rattle.bsv_types.specs.Kinds.{kind};
ghost use Rattle.bsv_elab.specs.AtHand as at_hand;
ghost use Rattle.bsv_elab.specs.Becoming.{GivesInto};
ghost use Rattle.bsv_elab.specs.Making as spec;
ghost use Rattle.bsv_elab.specs.Statics as statics;

use crate::attributes::add_marks;
use crate::builder::Builder;
use crate::elements::copied_static;
use crate::kinds::kind_of;
use crate::refused::{Building, LimitKind, Refused, from_carry};
use crate::state::{Grown, Marks, State};
use crate::values::{count, countable, set_weight};
use crate::variables::{binding, held_as, put_at};
use bsv_bits::{Name, OutOfMemory, Word};
use bsv_design::path_of;
use bsv_fail::Fail;
use bsv_tree::{Binding, Built, Count, Instance, Made, Static, no_variables};
use bsv_types::{Argument, GivenMaker, Param, Place, Ty, counted_width};
use sqlite_items::Items;
use std::alloc::{AllocError, Global};

/// The deepest queue.
const MOST_DEPTH: u32 = 64;

/// The most primitives of a design.
const MOST_PRIMITIVES: u32 = 4_096;

pub(crate) fn instance(alloc: Global, path: &[u8], made: Made) -> Result<Instance, OutOfMemory>
    ensures { IfOk result (λ i. i ≡ spec.instance path.now made) }
{
    let path = Name::new(alloc, path)?;
    Ok(Instance { path, made })
}

/// What stands for an instance of the module while its body is carried out.
pub(crate) fn unbuilt(alloc: Global, module: u32) -> Made
    ensures { result ≡ spec.unbuilt «module» }
{
    Made::Module(Built {
        module,
        bindings: Items::new(alloc),
        rules: Items::new(alloc),
        methods: Items::new(alloc),
    })
}

/// The tree has one instance more.
pub(crate) fn add_instance(instance: Instance, grown: &mut Grown) -> Result<(), AllocError>
    ensures { OnOk result (grown.new ≡ spec.with_instance instance grown.old) }
{
    grown.instances.push(instance)
}

/// The tree has one primitive more.
fn add_primitive(instance: Instance, grown: &mut Grown) -> Result<(), AllocError>
    requires { grown.old.primitives < 4096 }
    ensures { OnOk result (grown.new ≡ spec.with_primitive instance grown.old) }
{
    grown.instances.push(instance)?;
    grown.primitives += 1;
    Ok(())
}

fn first_number(arguments: &[Static]) -> i64
    ensures { result ≡ spec.first_number arguments.now }
{
    match arguments.first() {
        Some(Static::Number(number)) => *number,
        _ => 0,
    }
}

/// How deep a queue is to be.
fn depth_of(maker: GivenMaker, arguments: &[Static]) -> i64
    ensures { result ≡ spec.depth_of maker arguments.now }
{
    match maker {
        GivenMaker::SizedFifo | GivenMaker::SizedFifof => first_number(arguments),
        GivenMaker::Fifo1 | GivenMaker::Fifof1 => 1,
        _ => 2,
    }
}

/// The start value or the default.
fn start_of(arguments: &[Static]) -> Word
    ensures { result ≡ spec.start_of arguments.now }
{
    match arguments.first() {
        Some(Static::Bits(word)) => *word,
        Some(Static::Truth(truth)) => Word::bit(*truth),
        _ => Word::bit(false),
    }
}

/// The number of an instance of this depth, where the limits of depths and primitives are kept.
#[tactic(auto, unfolding(crate::specs::Making::most_depth, crate::specs::Making::most_primitives))]
fn within_limits(depth: u64, grown: &Grown) -> Building<u32>
    ensures limits { Gives result (spec.within_limits depth grown.now) }
    ensures room { IfOk result (λ number. grown.now.primitives < 4096) }
{
    if depth > u64::from(MOST_DEPTH) {
        let most = u64::from(MOST_DEPTH);
        return Err(Fail::Fault(Refused::Limit(LimitKind::Depth, most)));
    }
    if grown.primitives >= MOST_PRIMITIVES {
        let most = u64::from(MOST_PRIMITIVES);
        return Err(Fail::Fault(Refused::Limit(LimitKind::Instances, most)));
    }
    countable(grown.instances.len())
}

/// The module's parameters with these values.
pub(crate) fn parameters(
    alloc: Global,
    params: &[Param],
    arguments: &[Static],
) -> Result<Items<Binding>, OutOfMemory>
    ensures { IfOk result (λ found. found ≡ spec.parameters params.now arguments.now) }
{
    let mut found = Items::new(alloc);
    let mut rest = arguments;
    for param in params {
        let Some((value, after)) = rest.split_first() else {
            return Ok(found);
        };
        let value = copied_static(alloc, value)?;
        found.push(binding(alloc, param.name.bytes(), value)?)?;
        rest = after;
    }
    Ok(found)
}

/// The instance is at its number, and its attributes after those of the others.
pub(crate) fn place_after(
    number: u32,
    instance: Instance,
    inside: Marks,
    state: &mut State,
) -> Result<(), AllocError>
    ensures { OnOk result (state.new
        ≡ spec.behind number instance state.old.grown inside state.old.scope) }
{
    put_at(number as usize, instance, &mut state.grown.instances);
    add_marks(&mut state.scope.marks, inside)
}

/// Whether the module is among these.
pub(crate) fn is_around(module: u32, around: &[u32]) -> bool
    ensures { result ≡ spec.is_around «module» around.now }
{
    for other in around {
        if *other == module {
            return true;
        }
    }
    false
}

impl<'a> Builder<'a> {
    /// The width of what an instance of the type holds.
    #[tactic(auto, unfolding(bsv_tree::specs::tree::Widths::width))]
    pub(crate) fn width_in(self, ty: &Ty) -> u32
        ensures { result ≡ spec.width_in (at_hand.here self.entry) (kind ty.now) }
    {
        match ty {
            Ty::Part(_, Some(held)) => {
                match counted_width(&self.typed.enums, &self.typed.structs, held.get()) {
                    Some(width) => width,
                    None => 1,
                }
            }
            _ => 1,
        }
    }

    /// The instance that a place names, and the weight after it.
    fn placed(self, place: &Place, state: &State) -> Building<(u32, Count)>
        ensures { Gives result (spec.placed_in (at_hand.here self.entry) place.now state.now) }
    {
        let locals = no_variables(self.alloc, false)?;
        let found = self
            .site(state)
            .place(place, locals.as_slice(), count(state));
        found.map_err(from_carry)
    }

    /// An argument of a maker.
    fn argument(self, argument: &Argument, state: &mut State) -> Building<Static>
        ensures { GivesInto result state.new
            (spec.argument_in (at_hand.here self.entry) argument.now state.old) }
    {
        match argument {
            Argument::Value(e) => {
                let constant = self.constant(e, state)?;
                Ok(held_as(e.ty(), constant))
            }
            Argument::Instance(place) => {
                let (number, count) = self.placed(place, state)?;
                set_weight(count.weight, state);
                Ok(Static::Place(number))
            }
        }
    }

    /// The arguments of a maker.
    #[tactic(auto, unfolding(crate::specs::Making::arguments, crate::specs::Making::arguments_from))]
    pub(crate) fn arguments(
        self,
        arguments: &[Argument],
        state: &mut State,
    ) -> Building<Items<Static>>
        ensures { GivesInto result state.new
            (spec.arguments (at_hand.here self.entry) arguments.now state.old) }
    {
        let mut found = Items::new(self.alloc);
        for argument in arguments {
            found.push(self.argument(argument, state)?)?;
        }
        Ok(found)
    }

    /// The path of the next instance of the name.
    #[tactic(auto, unfolding(crate::specs::Making::named_instance))]
    pub(crate) fn named_instance(self, name: &[u8], state: &mut State) -> Building<Name>
        ensures { GivesInto result state.new
            (spec.named_instance (at_hand.here self.entry) name.now state.old) }
    {
        let own = state.scope.instances.next(self.alloc, self.path, name)?;
        Ok(path_of(self.alloc, self.path, own.bytes())?)
    }

    /// The depth, which is 1 or more.
    fn at_least_one(self, depth: i64) -> Building<u64>
        ensures { Gives result
            (spec.at_least_one (statics.static_fault (at_hand.here self.entry)) depth) }
    {
        match u64::try_from(depth) {
            Ok(depth) if depth > 0 => Ok(depth),
            _ => Err(Fail::Fault(self.static_fault())),
        }
    }

    /// An instance of a primitive of this width and depth, and its number.
    #[tactic(auto, unfolding(crate::specs::Making::most_primitives))]
    fn sized_primitive(
        self,
        width: u32,
        depth: u64,
        name: &[u8],
        maker: GivenMaker,
        arguments: &[Static],
        state: &mut State,
    ) -> Building<u32>
        ensures { GivesInto result state.new (spec.sized_primitive (at_hand.here self.entry) width
            depth name.now maker arguments.now state.old) }
    {
        let path = self.named_instance(name, state)?;
        let number = within_limits(depth, &state.grown)?;
        let kind = kind_of(maker, width, depth, start_of(arguments));
        let made = Made::Primitive(maker.part(), kind);
        add_primitive(Instance { path, made }, &mut state.grown)?;
        Ok(number)
    }

    /// An instance of a primitive, and its number.
    #[tactic(auto, unfolding(crate::specs::Making::primitive))]
    pub(crate) fn primitive(
        self,
        width: u32,
        name: &[u8],
        maker: GivenMaker,
        arguments: &[Static],
        state: &mut State,
    ) -> Building<u32>
        ensures { GivesInto result state.new (spec.primitive (at_hand.here self.entry) width
            name.now maker arguments.now state.old) }
    {
        let depth = self.at_least_one(depth_of(maker, arguments))?;
        self.sized_primitive(width, depth, name, maker, arguments, state)
    }
}
