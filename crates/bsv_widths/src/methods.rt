ghost use Rattle.std.specs.Prelude.{◌≡◌};
ghost use Rattle.bsv_fifo.specs.Queues.{queue_method, queue_result_width};
ghost use Rattle.bsv_design.specs.parts.Kinds.{kind_table};

use bsv_design::Kind;
use bsv_prim::Primitive;

/// The width of what a method of a queue answers: that of an item for `first`, else one bit.
fn queue_answer_width(width: u32, method: u32) -> u32
    ensures { result ≡ queue_result_width width (queue_method method) }
{
    if method == 2 { width } else { 1 }
}

/// The width of what a method answers.
pub(crate) fn answer_width(kind: &Kind, method: u32) -> u32
    ensures { result ≡ (kind_table kind.now).result_width method }
{
    match kind {
        Kind::Reg(kind) => kind.width,
        Kind::RegU(kind) => kind.width,
        Kind::Wire(kind) => kind.width,
        Kind::DWire(kind) => kind.width,
        Kind::RWire(kind) => kind.width + 1,
        Kind::Pulse(_) => 1,
        Kind::Plain(kind) => queue_answer_width(kind.width, method),
        Kind::Pipeline(kind) => queue_answer_width(kind.width, method),
        Kind::Bypass(kind) => queue_answer_width(kind.width, method),
    }
}

/// Whether a method acts. A number after the last method stands for the last one.
#[tactic(auto, using(crate::proofs::LastMethods::some_methods, crate::proofs::LastMethods::last_stands))]
pub(crate) fn acts(kind: &Kind, method: u32) -> bool
    ensures { result ≡ (kind_table kind.now).is_action method }
{
    let methods = kind.methods();
    if method < methods {
        kind.is_action(method)
    } else {
        kind.is_action(methods - 1)
    }
}
