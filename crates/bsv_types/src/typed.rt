ghost use Rattle.std.specs.Prelude.{◌≡◌, IsTrue};
ghost use Rattle.bsv_types.specs.Kinds.{kind};
ghost use Rattle.bsv_types.specs.Programs.{is_right};
ghost use Rattle.bsv_types.specs.Widths.{HasWidth, WidthWithin};
ghost use Rattle.bsv_types.specs.declared.typed.TheConstants.{MOST_BITS};

use crate::definitions::{Enum, Function, Interface, Struct};
use crate::modules::Module;
use crate::types::Ty;
use crate::widths::counted_width;
use sqlite_items::Items;

/// The most bits that a value has.
const MOST_BITS: u32 = 128;

/// A typed program: its definitions, each list in load and text order. Every expression has the type
/// that it carries, and every statement and every definition keeps its rules.
#[derive(Drop)]
pub struct Typed {
    pub enums: Items<Enum>,
    pub structs: Items<Struct>,
    /// `Empty` is the first.
    pub interfaces: Items<Interface>,
    pub functions: Items<Function>,
    pub modules: Items<Module>,
    ghost right: { IsTrue (is_right enums structs interfaces functions modules) },
}

impl Typed {
    /// The program of these definitions.
    pub fn new(
        enums: Items<Enum>,
        structs: Items<Struct>,
        interfaces: Items<Interface>,
        functions: Items<Function>,
        modules: Items<Module>,
    ) -> Typed
        requires { IsTrue (is_right enums structs interfaces functions modules) }
        ensures enums { result.enums ≡ enums }
        ensures structs { result.structs ≡ structs }
        ensures interfaces { result.interfaces ≡ interfaces }
        ensures functions { result.functions ≡ functions }
        ensures modules { result.modules ≡ modules }
    {
        Typed {
            enums,
            structs,
            interfaces,
            functions,
            modules,
        }
    }

    /// The number of bits of a value of the type.
    pub fn width(&self, ty: &Ty) -> u32
        requires { WidthWithin self.now.enums self.now.structs (kind ty.now) MOST_BITS }
        ensures { HasWidth self.now.enums self.now.structs (kind ty.now) result }
    {
        match counted_width(&self.enums, &self.structs, ty) {
            Some(width) => width,
            None => unreachable!(),
        }
    }
}
