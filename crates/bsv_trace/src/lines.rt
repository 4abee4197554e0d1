ghost use Rattle.std.specs.Prelude.{◌≡◌, ◌<◌, length, map, IsTrue, OnOk, OnErr};
ghost use Rattle.std.specs.List.{list_all};
ghost use Rattle.bsv_design.specs.scheme.Schemes.{Asking, outline};
ghost use Rattle.bsv_design.specs.scheme.Seen.{asking};
ghost use Rattle.bsv_design.specs.scheme.States.{methods_in, nothing_asked, zeros, AskingFits};
ghost use Rattle.bsv_design.specs.design.Widths.{port_fits};
ghost use Rattle.bsv_trace.specs.Lines.{AsksFor, nothing_of};
ghost use Rattle.bsv_trace.specs.Reading as spec;

use crate::call::calls;
use bsv_bits::Word;
use bsv_design::{Design, Element, Port, Requests};
use sqlite_items::Items;

/// A line that is no line of a trace of the design.
#[derive(Clone, Copy, Debug, PartialEq, Eq)]
pub struct BadLine;

/// Makes each word 0.
fn clear_words(ports: &[Port], words: &mut Items<Word>)
    requires fit { IsTrue (list_all port_fits ports.now) }
    requires places { length words.old ≡ length ports.now }
    ensures { words.new ≡ zeros ports.now }
{
    for (place, port) in ports.iter().enumerate() {
        words.set(place, Word::zero(port.width));
    }
}

/// Asks for nothing, with all arguments 0.
fn clear(methods: &[Element], requests: &mut Requests)
    requires fit { IsTrue (list_all spec.ports_fit methods.now) }
    requires places { spec.HasPlaces (map outline methods.now) (asking requests.old) }
    ensures { asking requests.new ≡ nothing_of (map outline methods.now) }
{
    for (number, method) in methods.iter().enumerate() {
        requests.asked.set(number, false);
        clear_words(method.arguments.as_slice(), &mut requests.args[number]);
    }
}

/// Reads a line where nothing is asked yet, and asks for what it says. Whether it is a line.
#[tactic(auto, unfolding(crate::specs::Reading::read))]
pub(crate) fn read(methods: &[Element], bytes: &[u8], requests: &mut Requests) -> bool
    requires { spec.HasPlaces (map outline methods.now) (asking requests.old) }
    ensures read { spec.GivesAll result (asking requests.new)
        (spec.read (map outline methods.now) bytes.now (asking requests.old)) }
    ensures places { spec.HasPlaces (map outline methods.now) (asking requests.new) }
{
    if bytes.len() > 4096 {
        return false;
    }
    match bytes {
        [] => true,
        [..] => calls(methods, bytes, requests),
    }
}

/// The methods of the top, of which there are so many.
fn methods_of<'a>(elements: &'a [Element], requests: &Requests) -> &'a [Element]
    requires { AskingFits elements.now (asking requests.now) }
    ensures methods { result.now ≡ methods_in elements.now }
    ensures places { spec.HasPlaces (map outline result.now) (asking requests.now) }
{
    &elements[..requests.asked.len()]
}

/// Reads a line of a trace, without its line feed: calls of methods of the top, with a blank between each
/// two. The requests are then those that the line asks for, and nothing is asked where it is no line.
pub fn line(design: &Design, bytes: &[u8], requests: &mut Requests) -> Result<(), BadLine>
    requires { AskingFits design.now.elements (asking requests.old) }
    ensures asks { OnOk result
        (AsksFor (map outline design.now.elements) bytes.now (asking requests.new)) }
    ensures only { OnOk result ((other : Asking) →
        AsksFor (map outline design.now.elements) bytes.now other → other ≡ asking requests.new) }
    ensures bad { OnErr result ((asked : Asking) →
        AsksFor (map outline design.now.elements) bytes.now asked → ⊥) }
    ensures nothing { OnErr result (asking requests.new ≡ nothing_asked design.now.elements) }
    ensures fits { AskingFits design.now.elements (asking requests.new) }
{
    let methods = methods_of(design.elements.as_slice(), requests);
    clear(methods, requests);
    if read(methods, bytes, requests) {
        return Ok(());
    }
    clear(methods, requests);
    Err(BadLine)
}
