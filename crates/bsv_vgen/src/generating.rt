ghost use Rattle.std.specs.Prelude.{◌≡◌, ◌^◌, nat_lt, Bool, true, IsTrue, length, map, IfOk};
ghost use Rattle.bsv_clock.specs.Shows.{cell, cells_of, input_widths};
ghost use Rattle.bsv_clock.specs.Grounds.{IsLawful, IsScheduleOf};
ghost use Rattle.bsv_design.specs.scheme.Schemes.{Scheme, AreAlike, design_scheme, kinds_of, outline};
ghost use Rattle.bsv_design.specs.scheme.Seen.{design_data};
ghost use Rattle.bsv_design.specs.scheme.States.{methods_in as methods_in_of};
ghost use Rattle.bsv_design.specs.declared.schedule.Schedule.{Schedule};
ghost use Rattle.bsv_net.specs.ShowsByNet.{WordsCarry, WordsIgnore};
ghost use Rattle.bsv_net.specs.AtHand.{net_data};
ghost use Rattle.bsv_vgen.specs.AtHand as hand;
ghost use Rattle.bsv_vgen.specs.ShowsByModule.{ModuleCarries, ModuleIgnores};
ghost use Rattle.bsv_vgen.specs.Interfaces.{HasResultWidths, IsModuleOf};
ghost use Rattle.bsv_vgen.specs.Modules as spec;
ghost use Rattle.bsv_vgen.specs.Resetting.{BeginsOpen, Resets};
ghost use Rattle.bsv_vgen.specs.Runs.{RunsAs, RunsUnasked};
ghost use Rattle.bsv_vtext.specs.AtHand.{module_data};

use crate::known::Known;
use crate::lines::Writing;
use crate::names::register_names;
use crate::ports::{inputs, methods_in, methods_of};
use crate::result_widths::results_fit;
use crate::told_wires::{add_fires, add_outputs, nexts_of, registers_of};
use crate::written::Written;
use bsv_bits::{Name, OutOfMemory};
use bsv_design::Design;
use bsv_net::Net;
use bsv_vtext::{Assign, Atom, VMethod, VModule, VRegister, VWire};
use sqlite_items::Items;
use std::alloc::Global;

/// The nodes of a net as lines, and what is known of them.
#[derive(Drop)]
struct Lines {
    written: Written,
    known: Items<Known>,
}

/// The nodes of the net of a design as lines.
#[tactic(auto, unfolding(crate::specs::Modules::lines, crate::specs::Modules::inputs))]
fn lines_of(alloc: Global, design: &Design, net: &Net) -> Result<Lines, OutOfMemory>
    ensures written { IfOk result (λ made. hand.written made.written
        ≡ (spec.lines (design_data design.now) (net_data net.now)).written) }
    ensures known { IfOk result (λ made. made.known
        ≡ (spec.lines (design_data design.now) (net_data net.now)).known) }
{
    let inputs = inputs(alloc, methods_in(design.elements.as_slice()))?;
    let writing = Writing {
        alloc,
        inputs: inputs.as_slice(),
        registers: net.registers.as_slice(),
    };
    let mut written = Written {
        wires: Items::new(alloc),
        assigns: Items::new(alloc),
    };
    let known = writing.nodes(&mut written, net.nodes.as_slice())?;
    Ok(Lines { written, known })
}

/// Whether so many have numbers of 32 bits.
fn are_few(count: usize) -> bool
    ensures { result ≡ nat_lt count (2 ^ 32) }
{
    u32::try_from(count).is_ok()
}

/// The parts of the module of a design.
#[derive(Drop)]
pub(crate) struct Parts {
    pub name: Name,
    pub methods: Items<VMethod>,
    pub registers: Items<VRegister>,
    pub wires: Items<VWire>,
    pub assigns: Items<Assign>,
    pub nexts: Items<Atom>,
}

/// The parts of the module of a design and of its net.
#[tactic(auto, unfolding(crate::specs::Modules::module_of))]
fn parts_of(alloc: Global, design: &Design, net: &Net) -> Result<Parts, OutOfMemory>
    ensures parts { IfOk result (λ made. hand.parts made
        ≡ spec.module_of (design_data design.now) (net_data net.now)) }
    ensures results { IfOk result (λ made.
        spec.results_fit (spec.lines (design_data design.now) (net_data net.now)).known
        (net_data net.now) (kinds_of (design_data design.now)) 0
        (methods_in_of design.now.elements) ≡ true) }
    ensures registers { IfOk result (λ made. IsTrue (nat_lt (length made.registers) (2 ^ 32))) }
    ensures wires { IfOk result (λ made. IsTrue (nat_lt (length made.wires) (2 ^ 32))) }
{
    let Lines { mut written, known } = lines_of(alloc, design, net)?;
    let elements = design.elements.as_slice();
    add_fires(alloc, &mut written, known.as_slice(), net, elements)?;
    let own = methods_in(elements);
    // The net of a design gives what a method gives in the method's own width.
    if !results_fit(alloc, known.as_slice(), net, design.parts.as_slice(), own)? {
        return Err(OutOfMemory);
    }
    add_outputs(&mut written.assigns, known.as_slice(), net, own)?;
    let names = register_names(alloc, design.parts.as_slice())?;
    let registers = registers_of(alloc, names.as_slice(), net.registers.as_slice())?;
    if !are_few(written.wires.len()) || !are_few(registers.len()) {
        return Err(OutOfMemory);
    }
    Ok(Parts {
        name: Name::new(alloc, design.name.bytes())?,
        methods: methods_of(alloc, known.as_slice(), net, own)?,
        registers,
        wires: written.wires,
        assigns: written.assigns,
        nexts: nexts_of(alloc, known.as_slice(), net.nexts.as_slice())?,
    })
}

/// The Verilog module of a design, from its net: in each clock its registers, its outputs and its
/// `WILL_FIRE_` wires tell what the net tells; it begins with registers that show the state before the first
/// clock, and a reset shows it again but for registers without a start.
pub fn generate(alloc: Global, design: &Design, net: &Net) -> Result<VModule, OutOfMemory>
    requires registers { map cell net.now.registers ≡ cells_of (kinds_of (design_data design.now)) }
    requires inputs { net.now.inputs ≡ input_widths (design_scheme (design_data design.now)) }
    ensures module { IfOk result (λ made. IsModuleOf design.now.name design.now.parts
        (map outline design.now.elements) (module_data made)) }
    // A result port is as wide as what its method gives, ready or not.
    ensures results { IfOk result (λ made. (S : Scheme)
        → AreAlike S (design_scheme (design_data design.now))
        → HasResultWidths S (module_data made)) }
    // Where the net carries the design, or a tree from which it was made, so does the module.
    ensures carries { IfOk result (λ made. (aggressive : Bool) (S : Scheme) (made_by : Schedule)
        → AreAlike S (design_scheme (design_data design.now)) → IsLawful S
        → IsScheduleOf S made_by → WordsCarry aggressive S made_by net.now
        → ModuleCarries aggressive S made_by (module_data made)) }
    // Of methods that act, words at the arguments count only while they are asked.
    ensures ignores { IfOk result (λ made. (aggressive : Bool) (S : Scheme) (made_by : Schedule)
        → AreAlike S (design_scheme (design_data design.now)) → IsLawful S
        → IsScheduleOf S made_by → WordsCarry aggressive S made_by net.now
        → WordsIgnore aggressive S made_by net.now
        → ModuleIgnores aggressive S made_by (module_data made)) }
    // And from its initial words on it runs as they do, clock after clock.
    ensures runs { IfOk result (λ made. (aggressive : Bool) (S : Scheme) (made_by : Schedule)
        → AreAlike S (design_scheme (design_data design.now)) → IsLawful S
        → IsScheduleOf S made_by → WordsCarry aggressive S made_by net.now
        → RunsAs aggressive S made_by (module_data made)) }
    // So it does whatever words are at arguments that are not asked for.
    ensures unasked { IfOk result (λ made. (aggressive : Bool) (S : Scheme) (made_by : Schedule)
        → AreAlike S (design_scheme (design_data design.now)) → IsLawful S
        → IsScheduleOf S made_by → WordsCarry aggressive S made_by net.now
        → WordsIgnore aggressive S made_by net.now
        → RunsUnasked aggressive S made_by (module_data made)) }
    ensures begins { IfOk result (λ made.
        BeginsOpen (kinds_of (design_data design.now)) (module_data made)) }
    ensures resets { IfOk result (λ made.
        Resets (kinds_of (design_data design.now)) (module_data made)) }
{
    let Parts {
        name,
        methods,
        registers,
        wires,
        assigns,
        nexts,
    } = parts_of(alloc, design, net)?;
    Ok(VModule::new(name, methods, registers, wires, assigns, nexts))
}
