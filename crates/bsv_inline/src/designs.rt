ghost use Rattle.std.specs.Prelude.{◌≡◌, ◌+◌, ◌<◌, true, Some, length, map, IfOk, OnOk};
ghost use Rattle.bsv_types.specs.Names.{countable};
ghost use Rattle.bsv_design.specs.scheme.Schemes.{design_scheme, AreAlike};
ghost use Rattle.bsv_tree.specs.meaning.Schemes.{tree_scheme};
ghost use Rattle.bsv_design.specs.scheme.Seen.{design_data};
ghost use Rattle.bsv_tree.specs.tree.Seen.{tree_data};
ghost use Rattle.bsv_tree.specs.tree.Elements as sources;
ghost use Rattle.bsv_tree.specs.carrying.Sources as carried;
ghost use Rattle.bsv_tree.specs.tree.Trees as trees;
ghost use Rattle.bsv_body.specs.Bodies.{IsBody};
ghost use Rattle.bsv_inline.specs.Flattening as flattening;
ghost use Rattle.bsv_inline.specs.Placed as placed;
ghost use Rattle.bsv_inline.specs.Placed.{ArePartNumbers};
ghost use Rattle.bsv_inline.specs.SourcesAtHand as at_hand;

use crate::parts::part_numbers;
use crate::placer::Placer;
use crate::primitives::parts;
use crate::sources::Sources;
use bsv_bits::{Name, OutOfMemory};
use bsv_body::{Body, Laid, flat_body, numbered};
use bsv_design::{Design, Element, NamedPart};
use bsv_tree::{Instance, Made, Source, Tree};
use bsv_widths::{has_widths, is_countable, value_acts_not};
use sqlite_items::Items;
use std::alloc::Global;

/// How many rules there are with those of this instance.
fn rules_counted(instance: &Instance, count: usize) -> Laid<usize>
    ensures { IfOk result (λ n. n ≡ count + trees.rules_in instance.now.made) }
{
    match &instance.made {
        Made::Primitive(..) => Ok(count),
        Made::Module(built) => count.checked_add(built.rules.len()).ok_or(OutOfMemory),
    }
}

/// How many rules there are after so many.
fn count_rules(instances: &[Instance], methods: usize) -> Laid<usize>
    ensures { IfOk result (λ n. n ≡ methods + trees.rule_count instances.now) }
{
    let mut count = methods;
    let mut rest = instances;
    while let Some((instance, after)) = rest.split_first() {
        count = rules_counted(instance, count)?;
        rest = after;
    }
    Ok(count)
}

/// What is at hand where elements are laid out.
#[derive(Clone, Copy)]
pub(crate) struct Layout<'a> {
    pub sources: Sources<'a>,
    /// Of each instance, how many primitives come before it, and at the end how many there are.
    pub numbers: &'a [u32],
    pub parts: &'a [NamedPart],
}

impl<'a> Layout<'a> {
    fn placer(self) -> Placer<'a>
        ensures modules { result.modules.now ≡ (at_hand.tree self.entry.sources).typed.modules }
        ensures instances { result.instances.now ≡ (at_hand.tree self.entry.sources).instances }
        ensures numbers { result.numbers.now ≡ self.entry.numbers.now }
    {
        Placer {
            alloc: self.sources.alloc,
            modules: self.sources.tree.typed.modules.as_slice(),
            instances: self.sources.tree.instances.as_slice(),
            numbers: self.numbers,
        }
    }

    /// The flat body of a source, whose calls are of methods of their parts.
    fn body_of(self, source: &Source) -> Laid<Body>
        requires { ArePartNumbers (at_hand.tree self.sources).instances self.numbers.now }
        ensures body { IfOk result (λ b.
            IsBody (length source.now.ports) source.now.steps source.now.gives b) }
        ensures fit { IfOk result (λ b. placed.all_fit (map (λ p. p.kind) self.entry.parts.now)
            (at_hand.tree self.entry.sources).instances b.calls ≡ true) }
    {
        let count = numbered(source.ports.len())?;
        let steps = source.steps.as_slice();
        let body = flat_body(self.sources.alloc, count, steps, source.gives)?;
        if self.placer().all_fit(self.parts, body.calls.as_slice()) {
            Ok(body)
        } else {
            Err(OutOfMemory)
        }
    }

    /// The element of a position, whose source has this flat body.
    #[tactic(auto, using(crate::proofs::Designed::laid_flat))]
    fn placed(self, position: u32, source: Source, body: Body) -> Laid<Element>
        requires numbers { ArePartNumbers (at_hand.tree self.sources).instances self.numbers.now }
        requires parts { self.parts.now
            ≡ sources.parts_among (at_hand.tree self.sources).instances }
        requires within { position < sources.element_count (at_hand.tree self.sources) }
        requires at { carried.source_at (at_hand.tree self.sources) position ≡ Some source }
        requires body { IsBody (length source.ports) source.steps source.gives body }
        requires fit { placed.all_fit (map (λ p. p.kind) self.parts.now)
            (at_hand.tree self.sources).instances body.calls ≡ true }
        ensures { IfOk result (λ e.
            flattening.IsFlat (at_hand.tree self.entry.sources) position e) }
    {
        self.placer()
            .element(source.name, source.role, source.ports, body)
    }

    /// The element of a position as a flat body.
    fn laid(self, position: u32) -> Laid<Element>
        requires numbers { ArePartNumbers (at_hand.tree self.sources).instances self.numbers.now }
        requires parts { self.parts.now
            ≡ sources.parts_among (at_hand.tree self.sources).instances }
        requires within { position < sources.element_count (at_hand.tree self.sources) }
        ensures { IfOk result (λ e.
            flattening.IsFlat (at_hand.tree self.entry.sources) position e) }
    {
        let source = self.sources.source(position)?;
        let body = self.body_of(&source)?;
        self.placed(position, source, body)
    }

    /// That the nodes have the words that they need, and that there are not too many of them. What is typed has its
    /// widths, so that none is turned away.
    fn keeps_widths(self, element: &Element) -> Laid<()>
        requires { self.parts.now
            ≡ sources.parts_among (at_hand.tree self.sources).instances }
        ensures { OnOk result
            (flattening.KeepsWidths (at_hand.tree self.entry.sources) element.now) }
    {
        if !is_countable(&element.nodes) || !is_countable(&element.calls) {
            return Err(OutOfMemory);
        }
        if !value_acts_not(self.parts, element) {
            return Err(OutOfMemory);
        }
        if has_widths(self.sources.alloc, self.parts, element)? {
            Ok(())
        } else {
            Err(OutOfMemory)
        }
    }

    /// The element of a position.
    fn element(self, position: u32) -> Laid<Element>
        requires numbers { ArePartNumbers (at_hand.tree self.sources).instances self.numbers.now }
        requires parts { self.parts.now
            ≡ sources.parts_among (at_hand.tree self.sources).instances }
        requires within { position < sources.element_count (at_hand.tree self.sources) }
        ensures { IfOk result (λ e.
            flattening.IsFlatElement (at_hand.tree self.entry.sources) position e) }
    {
        let element = self.laid(position)?;
        self.keeps_widths(&element)?;
        Ok(element)
    }

    /// All elements.
    #[tactic(auto, using(crate::proofs::Designed::laid_more))]
    fn elements(self, count: u32) -> Laid<Items<Element>>
        requires numbers { ArePartNumbers (at_hand.tree self.sources).instances self.numbers.now }
        requires parts { self.parts.now
            ≡ sources.parts_among (at_hand.tree self.sources).instances }
        requires count { count ≡ sources.element_count (at_hand.tree self.sources) }
        ensures laid { IfOk result (λ es.
            flattening.AreFlatElements (at_hand.tree self.entry.sources) 0 es) }
        ensures count { IfOk result (λ es. length es ≡ count) }
    {
        let mut elements = Items::new(self.sources.alloc);
        for position in 0..count {
            let element = self.element(position)?;
            elements.push(element)?;
        }
        Ok(elements)
    }
}

/// The name of the top's module.
fn top_name(alloc: Global, tree: &Tree) -> Laid<Name>
    ensures { IfOk result (λ name. flattening.top_name (tree_data tree.now) ≡ Some name) }
{
    match tree.typed.modules.get(tree.top as usize) {
        Some(module) => Name::new(alloc, module.name.bytes()),
        None => Err(OutOfMemory),
    }
}

/// The elements of a tree as flat bodies, in the order of their positions, over these primitives.
#[tactic(auto, unfolding(bsv_tree::specs::tree::Elements::element_count))]
fn all_elements(alloc: Global, tree: &Tree, parts: &[NamedPart]) -> Laid<Items<Element>>
    requires { parts.now ≡ sources.parts_among tree.now.instances }
    ensures laid { IfOk result (λ es. flattening.AreFlatElements (tree_data tree.now) 0 es) }
    ensures count { IfOk result (λ es.
        length es ≡ sources.element_count (tree_data tree.now)) }
{
    let sources = Sources { alloc, tree };
    let instances = tree.instances.as_slice();
    let numbers = part_numbers(alloc, instances)?;
    let count = numbered(count_rules(instances, sources.top_methods().len())?)?;
    let layout = Layout {
        sources,
        numbers: numbers.as_slice(),
        parts,
    };
    layout.elements(count)
}

/// The design of these elements and primitives of a tree, with its name and what its attributes ask.
fn design_of(
    alloc: Global,
    tree: &Tree,
    elements: Items<Element>,
    parts: Items<NamedPart>,
) -> Result<Design, OutOfMemory>
    requires laid { flattening.AreFlatElements (tree_data tree.now) 0 elements }
    requires count { length elements ≡ sources.element_count (tree_data tree.now) }
    requires elements { countable elements ≡ true }
    requires parts { parts ≡ sources.parts_among tree.now.instances }
    requires few { countable parts ≡ true }
    ensures alike { IfOk result (λ d.
        AreAlike (tree_scheme (tree_data tree.now)) (design_scheme (design_data d))) }
    ensures name { IfOk result (λ d. flattening.top_name (tree_data tree.now) ≡ Some d.name) }
    ensures parts { IfOk result (λ d. d.parts ≡ sources.parts_among tree.now.instances) }
{
    let name = top_name(alloc, tree)?;
    let pairs = Items::from_slice(alloc, tree.pairs.as_slice())?;
    let asserts = Items::from_slice(alloc, tree.asserts.as_slice())?;
    Ok(Design::new(name, elements, parts, pairs, asserts))
}

/// The design of a tree: its elements as flat bodies, in the order of their positions, over its primitives.
pub fn flatten(alloc: Global, tree: &Tree) -> Result<Design, OutOfMemory>
    ensures alike { IfOk result (λ d.
        AreAlike (tree_scheme (tree_data tree.now)) (design_scheme (design_data d))) }
    ensures name { IfOk result (λ d. flattening.top_name (tree_data tree.now) ≡ Some d.name) }
    ensures parts { IfOk result (λ d. d.parts ≡ sources.parts_among tree.now.instances) }
{
    let parts = parts(alloc, tree.instances.as_slice())?;
    let elements = all_elements(alloc, tree, parts.as_slice())?;
    if !is_countable(&elements) || !is_countable(&parts) {
        return Err(OutOfMemory);
    }
    design_of(alloc, tree, elements, parts)
}
