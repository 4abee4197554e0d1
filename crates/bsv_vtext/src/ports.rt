ghost use Rattle.std.specs.Prelude.{◌≡◌, [], ◌∷◌};
ghost use Rattle.std.specs.List.{flat_map};
ghost use Rattle.bsv_io.specs.Adding.{Adds};
ghost use Rattle.bsv_vtext.specs.AtHand as hand;
ghost use Rattle.bsv_vtext.specs.Signals as signals;
ghost use Rattle.bsv_vtext.specs.VText as spec;

use crate::names::{argument, enable, plain, ready};
use crate::pieces::{Texts, add_all, add_declaration};
use crate::tree::{VMethod, VRegister, VWire};
use bsv_io::{Failed, PutBuffer, Sink, add};

/// Where the ports are listed.
#[derive(Clone, Copy)]
pub(crate) enum Listing {
    Header,
    Declarations,
}

/// The word that declares a port.
fn direction(output: bool) -> &'static [u8]
    ensures { result.now ≡ spec.direction output }
{
    if output { b"  output" } else { b"  input" }
}

/// Adds a port.
fn add_port<S: Sink>(
    buffer: &mut PutBuffer,
    sink: &mut S,
    listing: Listing,
    output: bool,
    width: u32,
    name: Texts,
) -> Result<(), Failed>
    ensures { Adds (hand.port_text listing (hand.port output width name.entry)) result
        buffer.old buffer.new (S.writing sink.old) (S.writing sink.new) }
{
    match listing {
        Listing::Header => add_all(buffer, sink, &[b", ", name.front, name.middle, name.back]),
        Listing::Declarations => add_declaration(buffer, sink, direction(output), width, name),
    }
}

/// Adds the one port of a list.
fn add_only<S: Sink>(
    buffer: &mut PutBuffer,
    sink: &mut S,
    listing: Listing,
    output: bool,
    width: u32,
    name: Texts,
) -> Result<(), Failed>
    ensures { Adds (hand.listed listing (hand.port output width name.entry ∷ [])) result
        buffer.old buffer.new (S.writing sink.old) (S.writing sink.new) }
{
    add_port(buffer, sink, listing, output, width, name)
}

/// Adds the port of an argument of a method.
fn add_argument<S: Sink>(
    buffer: &mut PutBuffer,
    sink: &mut S,
    listing: Listing,
    method: &[u8],
    arg: &VWire,
) -> Result<(), Failed>
    ensures { Adds (hand.port_text listing (signals.argument_port method.now arg.now)) result
        buffer.old buffer.new (S.writing sink.old) (S.writing sink.new) }
{
    let name = argument(method, arg.name.bytes());
    add_port(buffer, sink, listing, false, arg.width, name)
}

/// Adds the ports of the arguments of a method.
fn add_arguments<S: Sink>(
    buffer: &mut PutBuffer,
    sink: &mut S,
    listing: Listing,
    method: &[u8],
    args: &[VWire],
) -> Result<(), Failed>
    ensures { Adds (hand.listed listing (signals.argument_ports method.now args.now)) result
        buffer.old buffer.new (S.writing sink.old) (S.writing sink.new) }
{
    let mut left = args;
    while let Some((arg, others)) = left.split_first() {
        add_argument(buffer, sink, listing, method, arg)?;
        left = others;
    }
    Ok(())
}

/// Adds the enable of a method that acts.
fn add_enable<S: Sink>(
    buffer: &mut PutBuffer,
    sink: &mut S,
    listing: Listing,
    method: &[u8],
    action: bool,
) -> Result<(), Failed>
    ensures { Adds (hand.listed listing (signals.enable_ports method.now action)) result
        buffer.old buffer.new (S.writing sink.old) (S.writing sink.new) }
{
    if action {
        add_only(buffer, sink, listing, false, 1, enable(method))
    } else {
        add(buffer, sink, b"")
    }
}

/// Adds the port that tells whether a method is ready.
fn add_ready<S: Sink>(
    buffer: &mut PutBuffer,
    sink: &mut S,
    listing: Listing,
    method: &[u8],
) -> Result<(), Failed>
    ensures { Adds (hand.port_text listing (signals.ready_port method.now)) result
        buffer.old buffer.new (S.writing sink.old) (S.writing sink.new) }
{
    add_port(buffer, sink, listing, true, 1, ready(method))
}

/// Adds the port of what a method gives.
fn add_result<S: Sink>(
    buffer: &mut PutBuffer,
    sink: &mut S,
    listing: Listing,
    method: &[u8],
    gives: Option<u32>,
) -> Result<(), Failed>
    ensures { Adds (hand.listed listing (signals.result_ports method.now gives)) result
        buffer.old buffer.new (S.writing sink.old) (S.writing sink.new) }
{
    match gives {
        Some(width) => add_only(buffer, sink, listing, true, width, plain(method)),
        None => add(buffer, sink, b""),
    }
}

/// Adds the ports of a method of these parts.
fn add_parts<S: Sink>(
    buffer: &mut PutBuffer,
    sink: &mut S,
    listing: Listing,
    name: &[u8],
    args: &[VWire],
    action: bool,
    gives: Option<u32>,
) -> Result<(), Failed>
    ensures { Adds (hand.listed listing (signals.ports_of name.now args.now action gives)) result
        buffer.old buffer.new (S.writing sink.old) (S.writing sink.new) }
{
    add_arguments(buffer, sink, listing, name, args)?;
    add_enable(buffer, sink, listing, name, action)?;
    add_ready(buffer, sink, listing, name)?;
    add_result(buffer, sink, listing, name, gives)
}

/// Adds the ports of a method.
fn add_method<S: Sink>(
    buffer: &mut PutBuffer,
    sink: &mut S,
    listing: Listing,
    method: &VMethod,
) -> Result<(), Failed>
    ensures { Adds (hand.listed listing (signals.method_ports method.now)) result
        buffer.old buffer.new (S.writing sink.old) (S.writing sink.new) }
{
    let args = method.args.as_slice();
    let name = method.name.bytes();
    add_parts(
        buffer,
        sink,
        listing,
        name,
        args,
        method.action,
        method.result,
    )
}

/// Adds the ports of all methods.
fn add_ports<S: Sink>(
    buffer: &mut PutBuffer,
    sink: &mut S,
    listing: Listing,
    methods: &[VMethod],
) -> Result<(), Failed>
    ensures { Adds (hand.listed listing (signals.ports methods.now)) result
        buffer.old buffer.new (S.writing sink.old) (S.writing sink.new) }
{
    let mut left = methods;
    while let Some((method, others)) = left.split_first() {
        add_method(buffer, sink, listing, method)?;
        left = others;
    }
    Ok(())
}

/// Adds the declaration of a register.
fn add_register<S: Sink>(
    buffer: &mut PutBuffer,
    sink: &mut S,
    register: &VRegister,
) -> Result<(), Failed>
    ensures { Adds (spec.register_line register.now) result buffer.old buffer.new
        (S.writing sink.old) (S.writing sink.new) }
{
    let width = register.start.width();
    add_declaration(buffer, sink, b"  reg", width, plain(register.name.bytes()))
}

/// Adds the declarations of the registers.
fn add_registers<S: Sink>(
    buffer: &mut PutBuffer,
    sink: &mut S,
    registers: &[VRegister],
) -> Result<(), Failed>
    ensures { Adds (flat_map spec.register_line registers.now) result buffer.old buffer.new
        (S.writing sink.old) (S.writing sink.new) }
{
    let mut left = registers;
    while let Some((register, others)) = left.split_first() {
        add_register(buffer, sink, register)?;
        left = others;
    }
    Ok(())
}

/// Adds the declaration of a wire.
fn add_wire<S: Sink>(buffer: &mut PutBuffer, sink: &mut S, wire: &VWire) -> Result<(), Failed>
    ensures { Adds (spec.wire_line wire.now) result buffer.old buffer.new
        (S.writing sink.old) (S.writing sink.new) }
{
    add_declaration(
        buffer,
        sink,
        b"  wire",
        wire.width,
        plain(wire.name.bytes()),
    )
}

/// Adds the declarations of the wires.
fn add_wires<S: Sink>(buffer: &mut PutBuffer, sink: &mut S, wires: &[VWire]) -> Result<(), Failed>
    ensures { Adds (flat_map spec.wire_line wires.now) result buffer.old buffer.new
        (S.writing sink.old) (S.writing sink.new) }
{
    let mut left = wires;
    while let Some((wire, others)) = left.split_first() {
        add_wire(buffer, sink, wire)?;
        left = others;
    }
    Ok(())
}

/// Adds the header.
#[tactic(auto, unfolding(crate::specs::VText::header))]
pub(crate) fn add_header<S: Sink>(
    buffer: &mut PutBuffer,
    sink: &mut S,
    name: &[u8],
    methods: &[VMethod],
) -> Result<(), Failed>
    ensures { Adds (spec.header name.now (signals.ports methods.now)) result buffer.old buffer.new
        (S.writing sink.old) (S.writing sink.new) }
{
    add(buffer, sink, b"module ")?;
    add(buffer, sink, name)?;
    add(buffer, sink, b"(CLK, RST_N")?;
    add_ports(buffer, sink, Listing::Header, methods)?;
    add(buffer, sink, b");\n")
}

/// Adds the declarations.
#[tactic(auto, unfolding(crate::specs::VText::declarations))]
pub(crate) fn add_declarations<S: Sink>(
    buffer: &mut PutBuffer,
    sink: &mut S,
    methods: &[VMethod],
    registers: &[VRegister],
    wires: &[VWire],
) -> Result<(), Failed>
    ensures { Adds (spec.declarations (signals.ports methods.now) registers.now wires.now) result
        buffer.old buffer.new (S.writing sink.old) (S.writing sink.new) }
{
    add(buffer, sink, b"  input CLK;\n  input RST_N;\n")?;
    add_ports(buffer, sink, Listing::Declarations, methods)?;
    add_registers(buffer, sink, registers)?;
    add_wires(buffer, sink, wires)
}
