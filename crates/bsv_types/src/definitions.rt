ghost use Rattle.std.specs.Prelude.{◌≡◌, ◌≤◌, ◌-◌, length, IsSome, IfSome, None, Some};
ghost use Rattle.bsv_types.specs.Shapes.{widths_by};
ghost use Rattle.bsv_types.specs.Widths.{IsLeast, field_kinds};

use crate::expressions::Expr;
use crate::methods::Methods;
use crate::statements::Stmt;
use crate::types::Ty;
use crate::widths::{counted_widths, least_width};
use bsv_bits::Name;
use sqlite_items::Items;

/// An enum. Its labels are numbered from 0 in their order.
#[derive(Drop)]
pub struct Enum {
    pub name: Name,
    pub labels: Items<Name>,
    /// In bits.
    pub width: u32,
}

/// A field of a struct.
#[derive(Drop)]
pub struct Field {
    pub name: Name,
    pub ty: Ty,
}

/// A struct. The first field is the most significant one.
#[derive(Drop)]
pub struct Struct {
    pub name: Name,
    pub fields: Items<Field>,
    /// In bits.
    pub width: u32,
}

/// A parameter of a function, a method or a module.
#[derive(Drop)]
pub struct Param {
    pub name: Name,
    pub ty: Ty,
}

/// What a method does and gives.
#[derive(Drop)]
pub enum MethodResult {
    /// It only gives a value of this type.
    Value(Ty),
    /// It acts.
    Action,
    /// It acts and gives a value of this type.
    ActionValue(Ty),
}

/// A method as its interface has it.
#[derive(Drop)]
pub struct MethodHeader {
    pub name: Name,
    pub params: Items<Param>,
    pub result: MethodResult,
}

/// An interface that is declared, or `Empty`.
#[derive(Drop)]
pub struct Interface {
    pub name: Name,
    pub methods: Methods,
}

/// What a function or a method carries out.
#[derive(Drop)]
pub enum Body {
    Statements(Items<Stmt>),
    /// `= e;`
    Value(Expr),
}

/// A function. Its parameters are the first levels of its body.
#[derive(Drop)]
pub struct Function {
    pub name: Name,
    pub params: Items<Param>,
    pub result: Ty,
    pub body: Body,
}

impl Enum {
    /// An enum of two labels or more, as wide as the number of the last one asks.
    pub fn new(name: Name, labels: Items<Name>) -> Enum
        requires { 2 ≤ length labels }
        ensures name { result.name ≡ name }
        ensures labels { result.labels ≡ labels }
        ensures width { IsLeast result.width (length labels - 1) }
    {
        let width = least_width(labels.len() as u64 - 1);
        Enum {
            name,
            labels,
            width,
        }
    }
}

impl Struct {
    /// A struct after these enums and structs, as wide as its fields together; None where a field has
    /// no bits. A width that no `u32` holds counts as the greatest one.
    pub fn new(
        enums: &Items<Enum>,
        structs: &Items<Struct>,
        name: Name,
        fields: Items<Field>,
    ) -> Option<Struct>
        ensures name { IfSome result (λ s. s.name ≡ name) }
        ensures fields { IfSome result (λ s. s.fields ≡ fields) }
        ensures width { IfSome result (λ s. widths_by enums.now structs.now (field_kinds fields)
            ≡ Some s.width) }
        ensures none { result ≡ None → widths_by enums.now structs.now (field_kinds fields) ≡ None }
    {
        match counted_widths(enums, structs, fields.as_slice()) {
            Some(width) => Some(Struct {
                name,
                fields,
                width,
            }),
            None => None,
        }
    }
}
