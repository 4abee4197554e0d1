use crate::signal::{Listing, Scope, Source, Title};
use crate::titles::last_name;
use crate::types::held_type;
use crate::values::{add_bits, add_typed, width_of};
use bsv_bits::{OutOfMemory, Word};
use bsv_design::Kind;
use bsv_prim::Primitive;
use bsv_tree::{Built, BuiltRule, Instance, Made, Tree};
use bsv_types::{MethodResult, Module, Param, Ty};
use std::alloc::Global;

/// How far the instances of a tree are listed.
#[derive(Drop)]
struct Walk {
    listing: Listing,
    /// The places of the modules whose scopes are open.
    open: Vec<u32>,
    /// How many registers were passed.
    passed: u32,
}

impl Walk {
    /// Closes scopes until so many are open.
    fn close_to(&mut self, depth: usize) -> Result<(), OutOfMemory> {
        for _scope in depth..self.open.len() {
            let _ = self.open.pop();
            self.listing.close()?;
        }
        Ok(())
    }
}

/// How many modules the instance of a path is in.
fn modules_around(path: &[u8]) -> usize {
    if path.is_empty() {
        return 0;
    }
    let dots = path.iter().filter(|byte| **byte == b'.').count();
    dots.saturating_add(1)
}

/// Adds what tells of the element of a position whether it fired, was stopped and was blocked.
fn add_element(position: u32, listing: &mut Listing) -> Result<(), OutOfMemory> {
    add_bits(Source::Fired(position), Title::Fired, 1, listing)?;
    add_bits(Source::Stopped(position), Title::Stopped, 1, listing)?;
    add_bits(Source::Blocked(position), Title::Blocked, 1, listing)
}

/// Adds a rule.
fn add_rule(title: Title, rule: &BuiltRule, listing: &mut Listing) -> Result<(), OutOfMemory> {
    listing.open(Scope::Element, title)?;
    add_element(rule.position, listing)?;
    listing.close()
}

/// Adds the rules of the instance of a place.
fn add_rules(number: u32, built: &Built, listing: &mut Listing) -> Result<(), OutOfMemory> {
    let mut place = 0u32;
    for rule in built.rules.as_slice() {
        add_rule(Title::Rule(number, place), rule, listing)?;
        place = place.saturating_add(1);
    }
    Ok(())
}

/// A tree, and the words of its registers at the start.
#[derive(Clone, Copy)]
struct Look<'a> {
    tree: &'a Tree,
    registers: &'a [Word],
}

impl<'a> Look<'a> {
    /// The width of a register.
    fn register_width(self, number: u32) -> u32 {
        match self.registers.get(number as usize) {
            Some(word) => word.width(),
            None => 1,
        }
    }

    /// The module of a place.
    fn module(self, number: u32) -> Option<&'a Module> {
        self.tree.typed.modules.get(number as usize)
    }

    /// The type of what the instance of a name in this module holds of a width, where it is known.
    fn type_of(self, module: Option<u32>, name: &[u8], width: u32) -> Option<&'a Ty> {
        let ty = held_type(self.module(module?)?, name)?;
        if width_of(&self.tree.typed, ty) == width {
            Some(ty)
        } else {
            None
        }
    }

    /// Adds a word of a register or of a queue.
    fn add_held(
        self,
        source: Source,
        title: Title,
        ty: Option<&Ty>,
        width: u32,
        listing: &mut Listing,
    ) -> Result<(), OutOfMemory> {
        match ty {
            Some(ty) => add_typed(&self.tree.typed, source, title, ty, listing),
            None => add_bits(source, title, width, listing),
        }
    }

    /// Adds the arguments of a method of the top.
    fn add_arguments(
        self,
        position: u32,
        params: &[Param],
        listing: &mut Listing,
    ) -> Result<(), OutOfMemory> {
        let mut place = 0u32;
        for param in params {
            let source = Source::Argument(position, place);
            let title = Title::Argument(self.tree.top, position, place);
            add_typed(&self.tree.typed, source, title, &param.ty, listing)?;
            place = place.saturating_add(1);
        }
        Ok(())
    }

    /// Adds what a method of the top gives.
    fn add_result(
        self,
        position: u32,
        given: &MethodResult,
        listing: &mut Listing,
    ) -> Result<(), OutOfMemory> {
        match given {
            MethodResult::Value(ty) | MethodResult::ActionValue(ty) => {
                let source = Source::Result(position);
                add_typed(&self.tree.typed, source, Title::Result, ty, listing)
            }
            MethodResult::Action => Ok(()),
        }
    }

    /// Adds the methods of the top.
    fn add_methods(self, top: &Module, listing: &mut Listing) -> Result<(), OutOfMemory> {
        let mut position = 0u32;
        for method in top.methods.as_slice() {
            listing.open(Scope::Element, Title::Method(self.tree.top, position))?;
            add_element(position, listing)?;
            self.add_arguments(position, method.params.as_slice(), listing)?;
            self.add_result(position, &method.result, listing)?;
            listing.close()?;
            position = position.saturating_add(1);
        }
        Ok(())
    }

    /// Adds a register, the instance of a place.
    fn add_register(self, place: u32, name: &[u8], walk: &mut Walk) -> Result<(), OutOfMemory> {
        let number = walk.passed;
        let width = self.register_width(number);
        let ty = self.type_of(walk.open.last().copied(), name, width);
        let source = Source::Register(number);
        let title = Title::Instance(place);
        self.add_held(source, title, ty, width, &mut walk.listing)
    }

    /// Adds the places of a queue, from its front, of so many registers in all.
    fn add_items(self, name: &[u8], registers: u32, walk: &mut Walk) -> Result<(), OutOfMemory> {
        let count = walk.passed;
        let width = self.register_width(count.saturating_add(1));
        let ty = self.type_of(walk.open.last().copied(), name, width);
        for number in 0..registers.saturating_sub(1) {
            let source = Source::Item(count, number);
            let title = Title::Item(number);
            self.add_held(source, title, ty, width, &mut walk.listing)?;
        }
        Ok(())
    }

    /// Adds a queue, the instance of a place.
    fn add_queue(
        self,
        place: u32,
        name: &[u8],
        registers: u32,
        walk: &mut Walk,
    ) -> Result<(), OutOfMemory> {
        let count = walk.passed;
        let width = self.register_width(count);
        let source = Source::Register(count);
        walk.listing.open(Scope::Parts, Title::Instance(place))?;
        add_bits(source, Title::Count, width, &mut walk.listing)?;
        self.add_items(name, registers, walk)?;
        walk.listing.close()
    }

    /// Adds an instance of a primitive. A wire holds nothing between two clocks, and has no signal.
    fn add_primitive(
        self,
        place: u32,
        name: &[u8],
        kind: Kind,
        walk: &mut Walk,
    ) -> Result<(), OutOfMemory> {
        let registers = kind.registers();
        match kind {
            Kind::Reg(_) | Kind::RegU(_) => self.add_register(place, name, walk)?,
            Kind::Plain(_) | Kind::Pipeline(_) | Kind::Bypass(_) => {
                self.add_queue(place, name, registers, walk)?;
            }
            Kind::Wire(_) | Kind::DWire(_) | Kind::RWire(_) | Kind::Pulse(_) => {}
        }
        walk.passed = walk.passed.saturating_add(registers);
        Ok(())
    }

    /// Opens the scope of an instance of a module, the instance of a place, and adds its methods, where it is the top,
    /// and its rules.
    fn add_module(self, place: u32, built: &Built, walk: &mut Walk) -> Result<(), OutOfMemory> {
        walk.open.push(built.module)?;
        if place > 0 {
            walk.listing.open(Scope::Module, Title::Instance(place))?;
        } else if let Some(top) = self.module(self.tree.top) {
            walk.listing.open(Scope::Module, Title::Top(self.tree.top))?;
            self.add_methods(top, &mut walk.listing)?;
        }
        add_rules(place, built, &mut walk.listing)
    }

    /// Adds the instance of a place.
    fn add_instance(
        self,
        place: u32,
        instance: &Instance,
        walk: &mut Walk,
    ) -> Result<(), OutOfMemory> {
        let path = instance.path.bytes();
        walk.close_to(modules_around(path))?;
        match &instance.made {
            Made::Primitive(_, kind) => self.add_primitive(place, last_name(path), *kind, walk),
            Made::Module(built) => self.add_module(place, built, walk),
        }
    }

    /// Adds all instances.
    fn add_all(self, walk: &mut Walk) -> Result<(), OutOfMemory> {
        let mut place = 0u32;
        for instance in self.tree.instances.as_slice() {
            self.add_instance(place, instance, walk)?;
            place = place.saturating_add(1);
        }
        walk.close_to(0)
    }
}

/// The signals of a design whose registers have these words at the start.
pub(crate) fn signals_of(
    alloc: Global,
    tree: &Tree,
    registers: &[Word],
) -> Result<Listing, OutOfMemory> {
    let mut walk = Walk {
        listing: Listing::new(alloc),
        open: Vec::new(alloc),
        passed: 0,
    };
    Look { tree, registers }.add_all(&mut walk)?;
    let Walk { listing, .. } = walk;
    Ok(listing)
}
