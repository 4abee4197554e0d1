ghost use Rattle.std.specs.Prelude.{◌≡◌};
ghost use Rattle.bsv_io.specs.Adding.{Adds};
ghost use Rattle.bsv_vtext.specs.AtHand as hand;
ghost use Rattle.bsv_vtext.specs.Signals as signals;
ghost use Rattle.bsv_vtext.specs.VText as spec;

use crate::pieces::{Texts, add_texts};
use crate::tree::{Atom, Target, VMethod, VRegister, VWire};
use bsv_io::{Failed, PutBuffer, Sink, add_constant};

/// The signals that a text names, by their places.
#[derive(Clone, Copy)]
pub(crate) struct Scope<'a> {
    pub methods: &'a [VMethod],
    pub registers: &'a [VRegister],
    pub wires: &'a [VWire],
}

/// A name as it is.
pub(crate) fn plain(name: &[u8]) -> Texts<'_>
    ensures { hand.texts result ≡ name.now }
{
    Texts {
        front: b"",
        middle: b"",
        back: name,
    }
}

/// The name of the port of an argument.
pub(crate) fn argument<'a>(method: &'a [u8], name: &'a [u8]) -> Texts<'a>
    ensures { hand.texts result ≡ signals.argument_name method.now name.now }
{
    Texts {
        front: method,
        middle: b"$",
        back: name,
    }
}

/// The name of the enable of a method.
pub(crate) fn enable(method: &[u8]) -> Texts<'_>
    ensures { hand.texts result ≡ signals.enable_name method.now }
{
    Texts {
        front: b"EN_",
        middle: b"",
        back: method,
    }
}

/// The name of the port that tells whether a method is ready.
pub(crate) fn ready(method: &[u8]) -> Texts<'_>
    ensures { hand.texts result ≡ signals.ready_name method.now }
{
    Texts {
        front: b"RDY_",
        middle: b"",
        back: method,
    }
}

/// The name of the method of a place; nothing where there is none.
fn method_name(methods: &[VMethod], place: u32) -> &[u8]
    ensures { result.now ≡ signals.method_name methods.now place }
{
    match methods.get(place as usize) {
        Some(method) => method.name.bytes(),
        None => b"",
    }
}

/// The name of the wire, or of the argument, of a place.
fn wire_name(wires: &[VWire], place: u32) -> &[u8]
    ensures { result.now ≡ signals.wire_name wires.now place }
{
    match wires.get(place as usize) {
        Some(wire) => wire.name.bytes(),
        None => b"",
    }
}

/// The name of the register of a place.
fn register_name(registers: &[VRegister], place: u32) -> &[u8]
    ensures { result.now ≡ signals.register_name registers.now place }
{
    match registers.get(place as usize) {
        Some(register) => register.name.bytes(),
        None => b"",
    }
}

/// The name that an argument has in its method.
fn own_name(methods: &[VMethod], method: u32, place: u32) -> &[u8]
    ensures { result.now ≡ signals.own_name methods.now method place }
{
    match methods.get(method as usize) {
        Some(found) => wire_name(found.args.as_slice(), place),
        None => b"",
    }
}

/// Adds an atom.
pub(crate) fn add_atom<S: Sink>(
    buffer: &mut PutBuffer,
    sink: &mut S,
    scope: Scope,
    atom: Atom,
) -> Result<(), Failed>
    ensures { Adds (spec.atom_text (hand.scope scope.entry) atom) result buffer.old buffer.new
        (S.writing sink.old) (S.writing sink.new) }
{
    match atom {
        Atom::Enable(place) => add_texts(buffer, sink, enable(method_name(scope.methods, place))),
        Atom::Argument(method, place) => {
            let own = own_name(scope.methods, method, place);
            add_texts(
                buffer,
                sink,
                argument(method_name(scope.methods, method), own),
            )
        }
        Atom::Register(place) => {
            let name = register_name(scope.registers, place);
            add_texts(buffer, sink, plain(name))
        }
        Atom::Wire(place) => {
            let name = wire_name(scope.wires, place);
            add_texts(buffer, sink, plain(name))
        }
        Atom::Constant(word) => add_constant(buffer, sink, word),
    }
}

/// Adds the name of a target.
pub(crate) fn add_target<S: Sink>(
    buffer: &mut PutBuffer,
    sink: &mut S,
    scope: Scope,
    target: Target,
) -> Result<(), Failed>
    ensures { Adds (spec.target_text (hand.scope scope.entry) target) result
        buffer.old buffer.new (S.writing sink.old) (S.writing sink.new) }
{
    match target {
        Target::Wire(place) => {
            let name = wire_name(scope.wires, place);
            add_texts(buffer, sink, plain(name))
        }
        Target::Ready(place) => add_texts(buffer, sink, ready(method_name(scope.methods, place))),
        Target::Result(place) => add_texts(buffer, sink, plain(method_name(scope.methods, place))),
    }
}
