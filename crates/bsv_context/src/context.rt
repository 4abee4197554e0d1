ghost use Rattle.std.specs.Prelude.{◌≡◌, option_map};
ghost use Rattle.bsv_types.specs.Kinds.{kind};
ghost use Rattle.bsv_types.specs.Shapes as ranged;
ghost use Rattle.bsv_types.specs.Shapes.{has_range};
ghost use Rattle.bsv_context.specs.Env as spec;
ghost use Rattle.bsv_context.specs.Seen.{Gives, limits, header, made, shapes, function_named, structure_named};

use crate::classes::beside;
use crate::fail::Fail;
use crate::made::TypedExpr;
use bsv_bits::Name;
use bsv_scopes::Scope;
use bsv_types::{Enum, Interface, Items, Struct, Ty, counted_width};

/// What a variable in scope is.
#[derive(Drop)]
pub enum Slot {
    /// One value or one instance of the type.
    One(Ty),
    /// An array of instances of the type.
    Many(Ty),
}

/// A variable in scope.
#[derive(Drop)]
pub struct Variable {
    pub level: u32,
    pub slot: Slot,
}

/// A function that may be called.
#[derive(Drop)]
pub struct FunctionHeader {
    /// Its place among the functions.
    pub number: u32,
    /// The types of its parameters.
    pub params: Items<Ty>,
    pub result: Ty,
}

/// A label of an enum.
#[derive(Drop)]
pub struct Label {
    /// The place of the enum among the enums.
    pub of_enum: u32,
    /// The place of the label in it.
    pub number: u32,
}

/// What an expression may name, beside the variables in scope.
#[derive(Drop)]
pub struct Context {
    /// Are the range of widths and the fit of literals and ranges asked for?
    pub strict: bool,
    pub enums: Items<Enum>,
    pub structs: Items<Struct>,
    pub interfaces: Items<Interface>,
    pub functions: Scope<FunctionHeader>,
    /// The functions with a number below this one may be called.
    pub callable: u32,
    pub labels: Scope<Label>,
    /// What the names of types that a program defines stand for.
    pub types: Scope<Ty>,
}

impl Context {
    /// The width of a type with bits.
    fn width(&self, ty: &Ty) -> Option<u32>
        ensures { result ≡ ranged.width_by self.now.enums self.now.structs (kind ty.now) }
    {
        counted_width(&self.enums, &self.structs, ty)
    }

    /// The Bit type that has the width of a type.
    pub fn packed(&self, ty: &Ty) -> Option<Ty>
        ensures { option_map kind result ≡ spec.packed (limits self.now) (kind ty.now) }
    {
        match ty {
            Ty::Down(below) => Some(Ty::Down(*below)),
            Ty::Maybe(payload) => {
                let held = self.packed(payload.get())?;
                beside(&Ty::Bit(1), &held)
            }
            _ => Some(Ty::Bit(self.width(ty)?)),
        }
    }

    /// The function of the name, if it may be called.
    pub fn function(&self, name: &Name) -> Option<&FunctionHeader>
        ensures { option_map (λ f. header f.now) result ≡ function_named self.now name.now }
    {
        match self.functions.find(name) {
            Some(function) if function.number < self.callable => Some(function),
            _ => None,
        }
    }

    /// The number of the struct that the name of a type stands for.
    pub fn structure(&self, name: &Name) -> Option<u32>
        ensures { result ≡ structure_named self.now name.now }
    {
        match self.types.find(name) {
            Some(Ty::Struct(number)) => Some(*number),
            _ => None,
        }
    }

    /// Whether the type is one of values with bits, in range.
    fn is_in_range(&self, ty: &Ty) -> bool
        ensures { result ≡ ranged.has_bits (shapes self.now) (kind ty.now) }
    {
        match ty {
            Ty::Bit(width) | Ty::UInt(width) | Ty::Int(width) => 1 <= *width && *width <= 128,
            Ty::Bool => true,
            Ty::Enum(number) => (*number as usize) < self.enums.len(),
            Ty::Struct(number) => (*number as usize) < self.structs.len(),
            Ty::Maybe(payload) => self.is_in_range(payload.get()) && has_range(self.width(ty)),
            Ty::Down(_) | Ty::Integer | Ty::Interface(_) | Ty::Part(_, _) => false,
        }
    }

    /// Whether the type is one with bits, where widths are left aside or in range.
    #[tactic(auto, unfolding(crate::specs::Env::has_bits, crate::specs::Env::most_maybes))]
    pub fn has_bits(&self, ty: &Ty) -> bool
        ensures { result ≡ spec.has_bits (limits self.now) (kind ty.now) }
    {
        if self.strict {
            self.is_in_range(ty)
        } else {
            nests_within(MOST_MAYBES, ty) && self.packed(ty).is_some()
        }
    }

    /// Whether the type is one of values: one with bits, or Integer.
    pub fn is_typed_value(&self, ty: &Ty) -> bool
        ensures { result ≡ spec.is_typed_value (limits self.now) (kind ty.now) }
    {
        match ty {
            Ty::Integer => true,
            _ => self.has_bits(ty),
        }
    }

    /// The typed expression, if its type is in order.
    #[tactic(auto, unfolding(crate::specs::Env::in_order))]
    pub fn in_order(&self, typed: TypedExpr) -> Result<TypedExpr, Fail>
        ensures { Gives made result (spec.in_order (limits self.now) (made typed)) }
    {
        if self.is_typed_value(&typed.ty) {
            Ok(typed)
        } else {
            Err(Fail::Fault)
        }
    }
}

/// The most Maybes that are in each other where widths are left aside. Walks over types go as deep.
const MOST_MAYBES: u32 = 1024;

/// No more than so many Maybes are in each other.
#[tactic(auto, unfolding(crate::specs::Env::nests_within))]
fn nests_within(most: u32, ty: &Ty) -> bool
    ensures { result ≡ spec.nests_within most (kind ty.now) }
{
    match ty {
        Ty::Maybe(payload) => most > 0 && nests_within(most - 1, payload.get()),
        _ => true,
    }
}

fn has_range(width: Option<u32>) -> bool
    ensures { result ≡ has_range width }
{
    match width {
        Some(width) => 1 <= width && width <= 128,
        None => false,
    }
}
