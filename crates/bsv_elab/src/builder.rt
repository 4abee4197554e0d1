ghost use Rattle.std.specs.Prelude.{◌+◌, ◌<◌};

use bsv_types::Typed;
use std::alloc::Global;

/// What each call has at hand.
#[derive(Clone, Copy)]
pub struct Builder<'a> {
    pub alloc: Global,
    pub typed: &'a Typed,
    /// The module whose body is carried out, by its place.
    pub module: u32,
    /// The path of its instance.
    pub path: &'a [u8],
    /// The modules whose bodies are carried out, from the top to this one.
    pub around: &'a [u32],
    /// How many modules in modules are left.
    pub depth: u32,
    /// The position of the first rule.
    pub first: u32,
    ghost few: { first + 512 < 4294967296 },
}
