ghost use Rattle.std.specs.Prelude.{◌≡◌, ◌<◌, IfOk, OnOk};
ghost use Rattle.bsv_design.specs.parts.Kinds.{kind_table};
ghost use Rattle.bsv_net.specs.AtHand.{wires};
ghost use Rattle.bsv_net.specs.Placing as placing;
ghost use Rattle.bsv_mux.specs.Nexts as spec;

use bsv_bits::OutOfMemory;
use bsv_design::Kind;
use bsv_net::{MethodPort, NetNode, Wires};
use bsv_ports::{CallSite, Firing, port};
use bsv_prim::Primitive;
use sqlite_items::Items;
use std::alloc::Global;

/// What the next words of the parts are placed with.
#[derive(Clone, Copy)]
pub struct Muxing<'a> {
    pub alloc: Global,
    pub firing: Firing<'a>,
    /// A node that is 0.
    pub none: u32,
}

impl Muxing<'_> {
    ghost use Rattle.bsv_mux.specs.AtHand as hand;

    /// The nodes of the methods of a part.
    #[tactic(auto, using(crate::proofs::Onward::ports_more), unfolding(crate::specs::Nexts::ports))]
    fn ports(
        self,
        nodes: &mut Items<NetNode>,
        kind: &Kind,
        call_sites: &[CallSite],
    ) -> Result<Items<Option<MethodPort>>, OutOfMemory>
        ensures nodes { OnOk result (nodes.new ≡ (spec.all_ports (hand.told self.entry)
            (kind_table kind.now) call_sites.now nodes.old).nodes) }
        ensures ports { IfOk result (λ ports. ports ≡ (spec.all_ports (hand.told self.entry)
            (kind_table kind.now) call_sites.now nodes.old).ports) }
    {
        let mut ports = Items::new(self.alloc);
        for method in 0..kind.methods() {
            let found = port(
                self.alloc,
                nodes,
                kind,
                method,
                self.firing,
                call_sites,
                self.none,
            )?;
            ports.push(Some(found))?;
        }
        Ok(ports)
    }

    /// The next word of one register of a part.
    fn place_piece(
        self,
        nodes: &mut Items<NetNode>,
        kind: &Kind,
        found: Wires<'_>,
        number: u32,
    ) -> Result<u32, OutOfMemory>
        requires { number < (kind_table kind.now).registers }
        ensures nodes { OnOk result (nodes.new ≡ (placing.piece (wires found.entry) nodes.old
            ((kind_table kind.now).next_piece number)).nodes) }
        ensures place { IfOk result (λ n. n ≡ (placing.piece (wires found.entry) nodes.old
            ((kind_table kind.now).next_piece number)).place) }
    {
        let piece = kind.next_piece(self.alloc, number)?;
        found.place(nodes, &piece)
    }

    /// The next words of the registers of a part come after the others.
    #[tactic(auto, unfolding(crate::specs::Nexts::pieces))]
    fn place_pieces(
        self,
        nodes: &mut Items<NetNode>,
        nexts: &mut Items<u32>,
        kind: &Kind,
        found: Wires<'_>,
    ) -> Result<(), OutOfMemory>
        ensures nodes { OnOk result (nodes.new ≡ (spec.all_pieces (hand.told self.entry)
            (kind_table kind.now) (wires found.entry) nodes.old nexts.old).nodes) }
        ensures nexts { OnOk result (nexts.new ≡ (spec.all_pieces (hand.told self.entry)
            (kind_table kind.now) (wires found.entry) nodes.old nexts.old).places) }
    {
        for number in 0..kind.registers() {
            let place = self.place_piece(nodes, kind, found, number)?;
            nexts.push(place)?;
        }
        Ok(())
    }

    /// The next words of a part, of which the first register has this node, come after the others.
    #[tactic(auto, unfolding(crate::specs::Nexts::part_nexts))]
    pub fn part_nexts(
        self,
        nodes: &mut Items<NetNode>,
        nexts: &mut Items<u32>,
        kind: &Kind,
        start: u32,
        call_sites: &[CallSite],
    ) -> Result<(), OutOfMemory>
        ensures nodes { OnOk result (nodes.new ≡ (spec.part_nexts (hand.told self.entry)
            kind.now start call_sites.now nodes.old nexts.old).nodes) }
        ensures nexts { OnOk result (nexts.new ≡ (spec.part_nexts (hand.told self.entry)
            kind.now start call_sites.now nodes.old nexts.old).places) }
    {
        if kind.registers() == 0 {
            return Ok(());
        }
        let ports = self.ports(nodes, kind, call_sites)?;
        let found = Wires {
            registers: start,
            ports: ports.as_slice(),
            own: kind.methods(),
            own_args: &[],
        };
        self.place_pieces(nodes, nexts, kind, found)
    }
}
