ghost use Rattle.std.specs.Prelude.{decimal};
ghost use Rattle.bsv_bits.specs.Constants.{constant_text};
ghost use Rattle.bsv_io.specs.Adding.{Adds};

use crate::failed::Failed;
use crate::put_buffer::PutBuffer;
use crate::sink::Sink;
use bsv_bits::Word;
use itoa::Buffer;

/// Adds a text after what waits to be put.
pub fn add<S: Sink>(buffer: &mut PutBuffer, sink: &mut S, text: &[u8]) -> Result<(), Failed>
    ensures { Adds text.now result buffer.old buffer.new (S.writing sink.old) (S.writing sink.new) }
{
    buffer.add(sink, text)
}

/// Adds a word as a constant, as `8'h0c`.
pub fn add_constant<S: Sink>(buffer: &mut PutBuffer, sink: &mut S, word: Word) -> Result<(), Failed>
    ensures { Adds (constant_text word) result buffer.old buffer.new
        (S.writing sink.old) (S.writing sink.new) }
{
    let mut constant = [0u8; 40];
    let len = word.write_hex(&mut constant);
    add(buffer, sink, &constant[..len])
}

/// Adds a number in decimal.
pub fn add_decimal<S: Sink>(buffer: &mut PutBuffer, sink: &mut S, number: u64) -> Result<(), Failed>
    ensures { Adds (decimal number) result buffer.old buffer.new
        (S.writing sink.old) (S.writing sink.new) }
{
    let mut digits = Buffer::new();
    add(buffer, sink, digits.format(number).as_bytes())
}
