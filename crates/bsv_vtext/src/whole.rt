ghost use Rattle.std.specs.Prelude.{◌≡◌, ◌≤◌, OnOk, OnErr};
ghost use Rattle.std.specs.List.{flat_map};
ghost use Rattle.bsv_io.specs.Adding.{Adds};
ghost use Rattle.bsv_io.specs.Faults.{MayFault};
ghost use Rattle.bsv_io.specs.Writing.{appended, AppendsPrefix};
ghost use Rattle.bsv_vtext.specs.AtHand.{module_data};
ghost use Rattle.bsv_vtext.specs.AtHand as hand;
ghost use Rattle.bsv_vtext.specs.Signals.{ports, scope};
ghost use Rattle.bsv_vtext.specs.VText.{vtext};
ghost use Rattle.bsv_vtext.specs.VText as spec;

use crate::blocks::add_blocks;
use crate::modules::VModule;
use crate::names::Scope;
use crate::ports::{add_declarations, add_header};
use crate::sides::add_assigns;
use bsv_io::{Failed, PutBuffer, Sink, add};

/// What the text of a module names.
fn scope_of(verilog: &VModule) -> Scope<'_>
    ensures { hand.scope result ≡ scope (module_data verilog.now) }
{
    Scope {
        methods: verilog.methods.as_slice(),
        registers: verilog.registers.as_slice(),
        wires: verilog.wires.as_slice(),
    }
}

/// Adds the header of a module.
fn add_front<S: Sink>(buffer: &mut PutBuffer, sink: &mut S, verilog: &VModule) -> Result<(), Failed>
    ensures { Adds (spec.header verilog.now.name (ports verilog.now.methods)) result
        buffer.old buffer.new (S.writing sink.old) (S.writing sink.new) }
{
    let methods = verilog.methods.as_slice();
    add_header(buffer, sink, verilog.name.bytes(), methods)
}

/// Adds the declarations of a module.
fn add_signals<S: Sink>(
    buffer: &mut PutBuffer,
    sink: &mut S,
    verilog: &VModule,
) -> Result<(), Failed>
    ensures { Adds (spec.declarations (ports verilog.now.methods) verilog.now.registers
        verilog.now.wires)
        result buffer.old buffer.new (S.writing sink.old) (S.writing sink.new) }
{
    let methods = verilog.methods.as_slice();
    let registers = verilog.registers.as_slice();
    add_declarations(buffer, sink, methods, registers, verilog.wires.as_slice())
}

/// Adds the assignments of a module.
fn add_equations<S: Sink>(
    buffer: &mut PutBuffer,
    sink: &mut S,
    verilog: &VModule,
) -> Result<(), Failed>
    ensures { Adds (flat_map (spec.assign_line (scope (module_data verilog.now)))
        verilog.now.assigns)
        result buffer.old buffer.new (S.writing sink.old) (S.writing sink.new) }
{
    add_assigns(buffer, sink, scope_of(verilog), verilog.assigns.as_slice())
}

/// Adds the blocks of a module.
fn add_clocked<S: Sink>(
    buffer: &mut PutBuffer,
    sink: &mut S,
    verilog: &VModule,
) -> Result<(), Failed>
    ensures { Adds (spec.blocks (scope (module_data verilog.now)) verilog.now.registers
        verilog.now.nexts)
        result buffer.old buffer.new (S.writing sink.old) (S.writing sink.new) }
{
    let registers = verilog.registers.as_slice();
    add_blocks(
        buffer,
        sink,
        scope_of(verilog),
        registers,
        verilog.nexts.as_slice(),
    )
}

/// Adds a module.
#[tactic(auto, unfolding(crate::specs::VText::vtext))]
fn add_module<S: Sink>(
    buffer: &mut PutBuffer,
    sink: &mut S,
    verilog: &VModule,
) -> Result<(), Failed>
    ensures { Adds (vtext (module_data verilog.now)) result buffer.old buffer.new
        (S.writing sink.old) (S.writing sink.new) }
{
    add_front(buffer, sink, verilog)?;
    add_signals(buffer, sink, verilog)?;
    add_equations(buffer, sink, verilog)?;
    add_clocked(buffer, sink, verilog)?;
    add(buffer, sink, b"endmodule\n")
}

/// Puts the text of a module. It takes no memory.
pub fn write<S: Sink>(verilog: &VModule, sink: &mut S) -> Result<(), Failed>
    ensures ok { OnOk result (S.writing sink.new ≡ appended (vtext (module_data verilog.now))
        (S.writing sink.old)) }
    ensures prefix { AppendsPrefix (vtext (module_data verilog.now)) (S.writing sink.old)
        (S.writing sink.new) }
    ensures count { (S.writing sink.old).faults ≤ (S.writing sink.new).faults }
    ensures counted { OnErr result (MayFault (S.writing sink.old).faults
        (S.writing sink.new).faults) }
{
    let mut buffer = PutBuffer::new();
    add_module(&mut buffer, sink, verilog)?;
    buffer.flush(sink)
}
