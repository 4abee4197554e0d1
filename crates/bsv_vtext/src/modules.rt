ghost use Rattle.std.specs.Prelude.{◌≡◌};
ghost use Rattle.bsv_vtext.specs.Modules.{IsModule};

use crate::tree::{Assign, Atom, VMethod, VRegister, VWire};
use bsv_bits::Name;
use sqlite_items::Items;

/// A Verilog module. No two of its signals have one name, each wire and each output is assigned once,
/// from what is known before it, and the widths of an assignment belong together.
#[derive(Drop)]
pub struct VModule {
    pub name: Name,
    /// In the order of the interface.
    pub methods: Items<VMethod>,
    pub registers: Items<VRegister>,
    pub wires: Items<VWire>,
    pub assigns: Items<Assign>,
    /// Of each register what it takes over at the edge.
    pub nexts: Items<Atom>,
    ghost right: { ∥ IsModule (record {
      name = name;
      methods = methods;
      registers = registers;
      wires = wires;
      assigns = assigns;
      nexts = nexts;
    }) ∥₁ },
}

impl VModule {
    /// The module of these parts.
    pub fn new(
        name: Name,
        methods: Items<VMethod>,
        registers: Items<VRegister>,
        wires: Items<VWire>,
        assigns: Items<Assign>,
        nexts: Items<Atom>,
    ) -> VModule
        requires { ∥ IsModule (record {
          name = name;
          methods = methods;
          registers = registers;
          wires = wires;
          assigns = assigns;
          nexts = nexts;
        }) ∥₁ }
        ensures name { result.name ≡ name }
        ensures methods { result.methods ≡ methods }
        ensures registers { result.registers ≡ registers }
        ensures wires { result.wires ≡ wires }
        ensures assigns { result.assigns ≡ assigns }
        ensures nexts { result.nexts ≡ nexts }
    {
        VModule {
            name,
            methods,
            registers,
            wires,
            assigns,
            nexts,
        }
    }
}
