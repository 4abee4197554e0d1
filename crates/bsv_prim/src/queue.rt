ghost use Rattle.std.specs.Prelude.{◌≡◌, ◌+◌, ◌<◌, ◌≤◌, ◌∷◌, ◌++◌, [], length, drop};
ghost use Rattle.std.specs.Prelude.{slice_get, slice_set, IfOk};

use bsv_bits::{OutOfMemory, Word};
use std::alloc::Global;
use std::marker::Model;

/// Words in a row, the front first, with room for as many as the depth says. The room is taken
/// when the queue is made. Contracts see the list of the words, and the depth.
#[derive(Drop)]
pub struct Queue {
    items: Vec<Word>,
    depth: u32,
}

impl Model for Queue {
    ghost use Rattle.std.specs.Prelude.{◌≤◌, vec_len, vec_capacity};
    ghost use Rattle.bsv_prim.specs.QueueState.{QueueState};

    ghost Value = { QueueState };

    ghost view = { λ queue. record { items = queue.items.items; depth = queue.depth } };

    ghost invariant = { λ queue.
        (vec_len queue.items ≤ queue.depth) × (queue.depth ≤ vec_capacity queue.items) };
}

impl Queue {
    /// An empty queue with room for so many words.
    pub fn new(alloc: Global, depth: u32) -> Result<Queue, OutOfMemory>
        ensures { IfOk result (λ queue. queue ≡ record { items = []; depth = depth }) }
    {
        let items = Vec::with_capacity(alloc, depth as usize)?;
        Ok(Queue { items, depth })
    }

    /// An equal queue with the same room.
    pub fn copy(&self, alloc: Global) -> Result<Queue, OutOfMemory>
        ensures { IfOk result (λ queue. queue ≡ self.now) }
    {
        let mut items = Vec::with_capacity(alloc, self.depth as usize)?;
        items.extend_from_slice(&self.items)?;
        Ok(Queue {
            items,
            depth: self.depth,
        })
    }

    /// How many words there are.
    pub fn len(&self) -> u32
        ensures length { result ≡ length self.now.items }
        ensures within { length self.now.items ≤ self.now.depth }
    {
        let _depth = self.depth;
        self.items.len() as u32
    }

    /// How many words there is room for.
    pub fn depth(&self) -> u32
        ensures depth { result ≡ self.now.depth }
        ensures within { length self.now.items ≤ self.now.depth }
    {
        let _items = &self.items;
        self.depth
    }

    /// Puts a word after the last one.
    pub fn push(&mut self, word: Word)
        requires { length self.old.items < self.old.depth }
        ensures { self.new ≡ record self.old { items = self.old.items ++ word ∷ [] } }
    {
        let _ = self.items.push(word);
    }

    /// Takes the front word away.
    pub fn pop(&mut self) -> Word
        requires { 0 < length self.old.items }
        ensures front { slice_get self.old.items 0 ≡ Some result }
        ensures rest { self.new ≡ record self.old { items = drop 1 self.old.items } }
    {
        self.items.remove(0)
    }

    /// The word at a place, counted from the front.
    pub fn item(&self, number: u32) -> Word
        requires { number < length self.now.items }
        ensures { slice_get self.now.items number ≡ Some result }
    {
        self.items[number as usize]
    }

    /// Puts a word in the place of another, counted from the front.
    pub fn set(&mut self, number: u32, word: Word)
        requires { number < length self.old.items }
        ensures { self.new ≡ record self.old { items = slice_set self.old.items number word } }
    {
        self.items[number as usize] = word;
    }

    /// Takes all words away.
    pub fn clear(&mut self)
        ensures { self.new ≡ record self.old { items = [] } }
    {
        self.items.clear();
    }
}
