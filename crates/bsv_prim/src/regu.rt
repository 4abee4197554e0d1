ghost use Rattle.std.specs.Prelude.{◌≡◌, ◌≤◌};
ghost use Rattle.bsv_prim.specs.Registers.{unset_start};

use crate::cells::{always_piece, fits_number, next_of_register, number_of, relation_of_register};
use crate::part::Part;
use crate::piece::Piece;
use crate::primitive::{Primitive, RegisterInfo, Rel};
use bsv_bits::{OutOfMemory, Word};
use std::alloc::Global;

/// 128 bits, of which the odd ones are 1.
const ODD_BITS: u128 = 0xaaaa_aaaa_aaaa_aaaa_aaaa_aaaa_aaaa_aaaa;

/// A register without a start of its own, which a reset leaves. Its bit i begins as 1 exactly
/// for odd i.
#[derive(Clone, Copy, Debug, PartialEq, Eq)]
pub struct RegUKind {
    pub width: u32,
    ghost some_width: { 1 ≤ width },
    ghost most_width: { width ≤ 128 },
}

/// The start of a register that has none.
fn start_of(width: u32) -> Word
    requires some { 1 ≤ width }
    requires most { width ≤ 128 }
    ensures { result ≡ unset_start width }
{
    match Word::new(128, ODD_BITS) {
        Some(word) => word.slice(width - 1, 0),
        None => unreachable!(),
    }
}

impl Primitive for RegUKind {
    ghost use Rattle.bsv_prim.specs.Registers.{regu_table};
    ghost use Rattle.bsv_prim.specs.RegisterLaws.{regu_laws};

    ghost table = { λ kind. regu_table kind.width };

    fn methods(&self) -> u32 {
        2
    }

    fn arity(&self, method: u32) -> u32 {
        if method == 0 { 0 } else { 1 }
    }

    fn argument_width(&self, _method: u32, _argument: u32) -> u32 {
        self.width
    }

    fn is_action(&self, method: u32) -> bool {
        method != 0
    }

    fn opening(&self, _alloc: Global) -> Result<Part, OutOfMemory> {
        Ok(Part::Number(start_of(self.width)))
    }

    fn fits(&self, part: &Part) -> bool {
        fits_number(self.width, part)
    }

    fn emptied(&self, _part: &mut Part) {}

    fn guarded(&self, _method: u32) -> bool {
        false
    }

    fn guard(&self, _method: u32, _part: &Part) -> bool {
        true
    }

    fn result(&self, _method: u32, part: &Part, _args: &[Word]) -> Word {
        number_of(self.width, part)
    }

    fn apply(&self, _method: u32, part: &mut Part, args: &[Word]) {
        *part = Part::Number(args[0]);
    }

    fn rank(&self, method: u32) -> u32 {
        if method == 0 { 0 } else { 1 }
    }

    fn relation(&self, first: u32, second: u32) -> Rel {
        relation_of_register(first, second)
    }

    fn sees(&self, _seen: u32, _by: u32) -> bool {
        false
    }

    fn registers(&self) -> u32 {
        1
    }

    fn register(&self, _number: u32) -> RegisterInfo {
        RegisterInfo {
            width: self.width,
            start: start_of(self.width),
            resets: false,
        }
    }

    fn guard_piece(&self, _alloc: Global, _method: u32) -> Result<Piece, OutOfMemory> {
        Ok(always_piece())
    }

    fn result_piece(&self, _alloc: Global, _method: u32) -> Result<Piece, OutOfMemory> {
        Ok(Piece::register(0))
    }

    fn next_piece(&self, alloc: Global, _register: u32) -> Result<Piece, OutOfMemory> {
        next_of_register(alloc)
    }

    ghost laws = { λ kind. regu_laws kind.width kind.some_width kind.most_width };
}
