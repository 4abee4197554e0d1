ghost use Rattle.std.specs.Prelude.{◌≡◌, ◌≤◌};
ghost use Rattle.bsv_elab.specs.MadeKinds as spec;

use bsv_bits::Word;
use bsv_design::Kind;
use bsv_fifo::{BypassKind, PipelineKind, PlainKind};
use bsv_prim::{DWireKind, PulseKind, RWireKind, RegKind, RegUKind, WireKind};
use bsv_types::GivenMaker;

/// A wire without a word.
fn pulse() -> Kind
    ensures { result ≡ spec.pulse }
{
    Kind::Pulse(PulseKind {})
}

/// The word, where it has so many bits; or else 0.
fn or_zero(width: u32, word: Word) -> Word
    requires some { 1 ≤ width }
    requires most { width ≤ 128 }
    ensures { result ≡ spec.or_zero width word }
{
    if word.width() == width {
        word
    } else {
        Word::zero(width)
    }
}

fn reg(width: u32, start: Word) -> Kind
    ensures { result ≡ spec.reg width start }
{
    if width < 1 || width > 128 {
        return pulse();
    }
    let start = or_zero(width, start);
    Kind::Reg(RegKind { width, start })
}

fn dwire(width: u32, default: Word) -> Kind
    ensures { result ≡ spec.dwire width default }
{
    if width < 1 || width > 128 {
        return pulse();
    }
    let default = or_zero(width, default);
    Kind::DWire(DWireKind { width, default })
}

fn regu(width: u32) -> Kind
    ensures { result ≡ spec.regu width }
{
    if width < 1 || width > 128 {
        return pulse();
    }
    Kind::RegU(RegUKind { width })
}

fn wire(width: u32) -> Kind
    ensures { result ≡ spec.wire width }
{
    if width < 1 || width > 128 {
        return pulse();
    }
    Kind::Wire(WireKind { width })
}

fn rwire(width: u32) -> Kind
    ensures { result ≡ spec.rwire width }
{
    if width < 1 || width > 127 {
        return pulse();
    }
    Kind::RWire(RWireKind { width })
}

fn plain(width: u32, depth: u64) -> Kind
    ensures { result ≡ spec.plain width depth }
{
    if width < 1 || width > 128 || depth < 1 || depth > 64 {
        return pulse();
    }
    let depth = depth as u32;
    Kind::Plain(PlainKind { width, depth })
}

fn pipeline(width: u32) -> Kind
    ensures { result ≡ spec.pipeline width }
{
    if width < 1 || width > 128 {
        return pulse();
    }
    Kind::Pipeline(PipelineKind { width })
}

fn bypass(width: u32) -> Kind
    ensures { result ≡ spec.bypass width }
{
    if width < 1 || width > 128 {
        return pulse();
    }
    Kind::Bypass(BypassKind { width })
}

/// The kind that the maker makes, by the width of what it holds, its depth, and its start or default.
pub(crate) fn kind_of(maker: GivenMaker, width: u32, depth: u64, start: Word) -> Kind
    ensures { result ≡ spec.kind_of maker width depth start }
{
    match maker {
        GivenMaker::Reg => reg(width, start),
        GivenMaker::RegU => regu(width),
        GivenMaker::Wire => wire(width),
        GivenMaker::DWire => dwire(width, start),
        GivenMaker::RWire => rwire(width),
        GivenMaker::PulseWire => pulse(),
        GivenMaker::Fifo
        | GivenMaker::Fifo1
        | GivenMaker::SizedFifo
        | GivenMaker::Fifof
        | GivenMaker::Fifof1
        | GivenMaker::SizedFifof => plain(width, depth),
        GivenMaker::LFifo
        | GivenMaker::PipelineFifo
        | GivenMaker::LFifof
        | GivenMaker::PipelineFifof => pipeline(width),
        GivenMaker::BypassFifo | GivenMaker::BypassFifof => bypass(width),
    }
}
