ghost use Rattle.std.specs.Prelude.{◌≡◌};
ghost use Rattle.bsv_types.specs.Makers.{makers, maker_name, given_maker};
ghost use Rattle.bsv_types.specs.Methods.{made_part};

use crate::expressions::{Expr, Place};
use crate::types::PartTy;
use sqlite_items::Items;

/// The makers that the language gives.
#[derive(Clone, Copy, Debug, PartialEq, Eq)]
pub enum GivenMaker {
    Reg,
    RegU,
    Wire,
    DWire,
    RWire,
    PulseWire,
    Fifo,
    Fifo1,
    SizedFifo,
    Fifof,
    Fifof1,
    SizedFifof,
    LFifo,
    PipelineFifo,
    LFifof,
    PipelineFifof,
    BypassFifo,
    BypassFifof,
}

/// Each maker that the language gives, once.
const MAKERS: [GivenMaker; 18] = [
    GivenMaker::Reg,
    GivenMaker::RegU,
    GivenMaker::Wire,
    GivenMaker::DWire,
    GivenMaker::RWire,
    GivenMaker::PulseWire,
    GivenMaker::Fifo,
    GivenMaker::Fifo1,
    GivenMaker::SizedFifo,
    GivenMaker::Fifof,
    GivenMaker::Fifof1,
    GivenMaker::SizedFifof,
    GivenMaker::LFifo,
    GivenMaker::PipelineFifo,
    GivenMaker::LFifof,
    GivenMaker::PipelineFifof,
    GivenMaker::BypassFifo,
    GivenMaker::BypassFifof,
];

/// Each maker that the language gives, once.
#[tactic(auto, using(crate::proofs::GivenTables::maker_tables))]
pub fn given_makers() -> &'static [GivenMaker]
    ensures { result.now ≡ makers }
{
    &MAKERS
}

impl GivenMaker {
    /// What a program calls it.
    pub fn name(self) -> &'static [u8]
        ensures { result.now ≡ maker_name self }
    {
        match self {
            GivenMaker::Reg => b"mkReg".as_slice(),
            GivenMaker::RegU => b"mkRegU".as_slice(),
            GivenMaker::Wire => b"mkWire".as_slice(),
            GivenMaker::DWire => b"mkDWire".as_slice(),
            GivenMaker::RWire => b"mkRWire".as_slice(),
            GivenMaker::PulseWire => b"mkPulseWire".as_slice(),
            GivenMaker::Fifo => b"mkFIFO".as_slice(),
            GivenMaker::Fifo1 => b"mkFIFO1".as_slice(),
            GivenMaker::SizedFifo => b"mkSizedFIFO".as_slice(),
            GivenMaker::Fifof => b"mkFIFOF".as_slice(),
            GivenMaker::Fifof1 => b"mkFIFOF1".as_slice(),
            GivenMaker::SizedFifof => b"mkSizedFIFOF".as_slice(),
            GivenMaker::LFifo => b"mkLFIFO".as_slice(),
            GivenMaker::PipelineFifo => b"mkPipelineFIFO".as_slice(),
            GivenMaker::LFifof => b"mkLFIFOF".as_slice(),
            GivenMaker::PipelineFifof => b"mkPipelineFIFOF".as_slice(),
            GivenMaker::BypassFifo => b"mkBypassFIFO".as_slice(),
            GivenMaker::BypassFifof => b"mkBypassFIFOF".as_slice(),
        }
    }

    /// The maker of this name.
    #[tactic(auto, unfolding(crate::specs::Makers::given_maker))]
    pub fn named(name: &[u8]) -> Option<GivenMaker>
        ensures { result ≡ given_maker name.now }
    {
        given_makers()
            .iter()
            .copied()
            .find(|maker| name == maker.name())
    }

    /// The interface of what it makes.
    pub fn part(self) -> PartTy
        ensures { result ≡ made_part self }
    {
        match self {
            GivenMaker::Reg | GivenMaker::RegU => PartTy::Reg,
            GivenMaker::Wire | GivenMaker::DWire => PartTy::Wire,
            GivenMaker::RWire => PartTy::RWire,
            GivenMaker::PulseWire => PartTy::PulseWire,
            GivenMaker::Fifo
            | GivenMaker::Fifo1
            | GivenMaker::SizedFifo
            | GivenMaker::LFifo
            | GivenMaker::PipelineFifo
            | GivenMaker::BypassFifo => PartTy::Fifo,
            GivenMaker::Fifof
            | GivenMaker::Fifof1
            | GivenMaker::SizedFifof
            | GivenMaker::LFifof
            | GivenMaker::PipelineFifof
            | GivenMaker::BypassFifof => PartTy::Fifof,
        }
    }
}

/// What makes an instance.
#[derive(Clone, Copy, Debug, PartialEq, Eq)]
pub enum Maker {
    Given(GivenMaker),
    /// A module, by its place.
    Module(u32),
}

/// What a maker is handed.
#[derive(Drop)]
pub enum Argument {
    Value(Expr),
    Instance(Place),
}

/// A maker with its arguments.
#[derive(Drop)]
pub struct Make {
    pub maker: Maker,
    pub arguments: Items<Argument>,
}
