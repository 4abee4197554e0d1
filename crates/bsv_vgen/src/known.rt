ghost use Rattle.std.specs.Prelude.{◌≡◌, slice_get};
ghost use Rattle.bsv_vgen.specs.Lines as spec;
ghost use Rattle.bsv_vgen.specs.Modules as modules;

use bsv_bits::Word;
use bsv_prim::RegisterInfo;
use bsv_vtext::Atom;

/// What is known of a node: the atom that has its word, and its width in bits.
#[derive(Clone, Copy)]
pub struct Known {
    pub atom: Atom,
    pub width: u32,
}

/// One bit that is 0.
fn nothing() -> Known
    ensures { result ≡ spec.nothing }
{
    Known {
        atom: Atom::Constant(Word::bit(false)),
        width: 1,
    }
}

/// A constant.
pub(crate) fn constant(word: Word) -> Known
    ensures { result ≡ spec.constant word }
{
    Known {
        atom: Atom::Constant(word),
        width: word.width(),
    }
}

/// What is known of the node of a place.
pub(crate) fn known_at(known: &[Known], place: u32) -> Known
    ensures { result ≡ spec.known_at known.now place }
{
    match known.get(place as usize) {
        Some(found) => *found,
        None => nothing(),
    }
}

/// What is known of the register of a place.
pub(crate) fn register_at(registers: &[RegisterInfo], place: u32) -> Known
    ensures { result ≡ spec.register (slice_get registers.now place) place }
{
    match registers.get(place as usize) {
        Some(register) => Known {
            atom: Atom::Register(place),
            width: register.width,
        },
        None => nothing(),
    }
}

/// What is known of the node that an entry names.
pub(crate) fn told_at(known: &[Known], nodes: &[u32], place: u32) -> Known
    ensures { result ≡ modules.told_at known.now nodes.now place }
{
    match nodes.get(place as usize) {
        Some(node) => known_at(known, *node),
        None => nothing(),
    }
}
