ghost use Rattle.std.specs.Prelude.{◌≡◌, map, IfOk};
ghost use Rattle.bsv_design.specs.design.Bodies.{at};
ghost use Rattle.bsv_design.specs.design.Words as the_words;

use bsv_bits::{OutOfMemory, Word};
use bsv_design::word_at;
use sqlite_items::Items;
use std::alloc::Global;

pub fn is_one(word: Word) -> bool
    ensures { result ≡ the_words.is_one word }
{
    word.value() == 1
}

/// The words of these nodes.
pub fn words_at(alloc: Global, words: &[Word], nodes: &[u32]) -> Result<Items<Word>, OutOfMemory>
    ensures { IfOk result (λ found. found ≡ map (at words.now) nodes.now) }
{
    let mut found = Items::new(alloc);
    for node in nodes {
        found.push(word_at(words, *node))?;
    }
    Ok(found)
}
