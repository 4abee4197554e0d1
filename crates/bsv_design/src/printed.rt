ghost use Rattle.std.specs.Prelude.{◌≡◌, ◌<◌};
ghost use Rattle.bsv_prim.specs.Table.{word_at};
ghost use Rattle.bsv_prim.specs.declared.part.Part.{Part as ThePart};
ghost use Rattle.bsv_design.specs.parts.Printed.{ShowPart, items_in, word_of, words_in};

use crate::kind::Kind;
use bsv_bits::Word;

/// The word of a register.
fn register_at(registers: &[Word], place: usize) -> Word
    ensures { result ≡ word_at registers.now place }
{
    match registers.get(place) {
        Some(word) => *word,
        None => Word::bit(false),
    }
}

impl Kind {
    /// How many items are printed of an instance whose registers have these words, which is `None` for a kind of which
    /// one word is printed.
    pub fn items(&self, registers: &[Word]) -> Option<u32>
        ensures { (p : ThePart) → ShowPart self.now registers.now p → result ≡ items_in p }
    {
        match self {
            Kind::Plain(_) | Kind::Pipeline(_) | Kind::Bypass(_) => {
                u32::try_from(register_at(registers, 0).value()).ok()
            }
            Kind::Reg(_) | Kind::RegU(_) => None,
            Kind::Wire(_) | Kind::DWire(_) | Kind::RWire(_) | Kind::Pulse(_) => None,
        }
    }

    /// Of an instance whose registers have these words, the word of a number that is printed: that of a register is
    /// number 0, and those of a queue are its items from the front.
    pub fn item(&self, registers: &[Word], number: u32) -> Word
        ensures { (p : ThePart) → ShowPart self.now registers.now p → number < words_in p
            → result ≡ word_of p number }
    {
        match self {
            Kind::Plain(_) | Kind::Pipeline(_) | Kind::Bypass(_) => {
                register_at(registers, number as usize + 1)
            }
            Kind::Reg(_) | Kind::RegU(_) => register_at(registers, 0),
            Kind::Wire(_) | Kind::DWire(_) | Kind::RWire(_) | Kind::Pulse(_) => Word::bit(false),
        }
    }
}
