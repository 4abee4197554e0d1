use bsv_bits::Word;
use bsv_io::{Failed, PutBuffer, Sink, add_constant, add_decimal};

/// A text on its way to a sink. Up to 4,096 bytes wait, so that a line costs no call of its own.
#[derive(Drop)]
pub struct Page<S: Sink + Drop> {
    sink: S,
    waiting: PutBuffer,
    failed: bool,
}

impl<S: Sink + Drop> Page<S> {
    /// A page without text.
    pub fn new(sink: S) -> Page<S> {
        Page {
            sink,
            waiting: PutBuffer::new(),
            failed: false,
        }
    }

    /// Takes what a put gave: after a failure nothing more is put.
    fn note(&mut self, put: Result<(), Failed>) {
        if put.is_err() {
            self.failed = true;
        }
    }

    /// Adds a text.
    pub fn text(&mut self, text: &[u8]) {
        if !self.failed {
            let put = self.waiting.add(&mut self.sink, text);
            self.note(put);
        }
    }

    /// Adds texts, one after the other.
    pub fn texts(&mut self, texts: &[&[u8]]) {
        for text in texts {
            self.text(text);
        }
    }

    /// Adds a number in decimal.
    pub fn number(&mut self, number: u64) {
        if !self.failed {
            let put = add_decimal(&mut self.waiting, &mut self.sink, number);
            self.note(put);
        }
    }

    /// Adds a word as a constant, as `8'h0c`.
    pub fn constant(&mut self, word: Word) {
        if !self.failed {
            let put = add_constant(&mut self.waiting, &mut self.sink, word);
            self.note(put);
        }
    }

    /// Whether a put failed.
    pub fn has_failed(&self) -> bool {
        self.failed
    }

    /// The sink, as far as it was put to.
    pub fn sink(&self) -> &S {
        &self.sink
    }

    /// Puts what waits, and tells whether all was put.
    pub fn end(&mut self) -> Result<(), Failed> {
        if self.failed {
            return Err(Failed);
        }
        self.waiting.flush(&mut self.sink)
    }
}
