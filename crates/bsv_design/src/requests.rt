ghost use Rattle.std.specs.Prelude.{◌≡◌, IfOk, IsTrue};
ghost use Rattle.std.specs.List.{list_all};
ghost use Rattle.bsv_design.specs.scheme.Seen.{asking};
ghost use Rattle.bsv_design.specs.scheme.States as states;
ghost use Rattle.bsv_design.specs.design.Widths.{port_fits};

use crate::design::Design;
use crate::element::Port;
use bsv_bits::{OutOfMemory, Word};
use sqlite_items::Items;
use std::alloc::Global;

/// What is asked of the top in a clock: of each of its methods whether it is called, and its arguments.
#[derive(Drop)]
pub struct Requests {
    pub asked: Items<bool>,
    pub args: Vec<Items<Word>>,
}

impl Requests {
    /// Nothing is asked, and all arguments are 0.
    #[tactic(auto, using(crate::proofs::Asked::nothing_fits))]
    pub fn new(alloc: Global, design: &Design) -> Result<Requests, OutOfMemory>
        ensures nothing { IfOk result (λ requests.
            asking requests ≡ states.nothing_asked design.now.elements) }
        ensures fit { IfOk result (λ requests.
            states.AskingFits design.now.elements (asking requests)) }
    {
        let requests = unasked(alloc, design)?;
        Ok(requests)
    }
}

/// Nothing is asked, and all arguments are 0.
#[tactic(auto, using(crate::proofs::Asked::ports_right))]
fn unasked(alloc: Global, design: &Design) -> Result<Requests, OutOfMemory>
    ensures { IfOk result (λ requests.
        asking requests ≡ states.nothing_asked design.now.elements) }
{
    let mut asked = Items::new(alloc);
    let mut args = Vec::new(alloc);
    let mut rest = design.elements.as_slice();
    while let Some((element, after)) = rest.split_first() {
        if element.role.is_rule() {
            break;
        }
        asked.push(false)?;
        args.push(zeros(alloc, element.arguments.as_slice())?)?;
        rest = after;
    }
    Ok(Requests { asked, args })
}

/// A word that is 0 for each argument.
#[tactic(auto, using(crate::proofs::Asked::port_at, crate::proofs::Asked::some_width, crate::proofs::Asked::most_width))]
fn zeros(alloc: Global, ports: &[Port]) -> Result<Items<Word>, OutOfMemory>
    requires { IsTrue (list_all port_fits ports.now) }
    ensures { IfOk result (λ words. words ≡ states.zeros ports.now) }
{
    let mut words = Items::new(alloc);
    for port in ports {
        words.push(Word::zero(port.width))?;
    }
    Ok(words)
}
