ghost use Rattle.std.specs.Prelude.{◌≡◌, [], IfOk};
ghost use Rattle.bsv_net.specs.AtHand.{net_data};
ghost use Rattle.bsv_share.specs.Sharing as spec;

use crate::fold::fold;
use crate::moves::moved;
use crate::order::order;
use bsv_bits::OutOfMemory;
use bsv_net::Net;
use std::alloc::Global;

/// A net with the same registers and inputs that gives the same in each clock with fewer nodes: no operator has constants
/// alone for operands, no two nodes are equal, and each is needed for what the net gives.
pub fn share(alloc: Global, net: &Net) -> Result<Net, OutOfMemory>
    ensures registers { IfOk result (λ made. made.registers ≡ net.now.registers) }
    ensures inputs { IfOk result (λ made. made.inputs ≡ net.now.inputs) }
    ensures sites { IfOk result (λ made. made.sites ≡ []) }
    ensures gives { IfOk result (λ made. spec.GivesSame (net_data net.now) (net_data made)) }
    ensures results { IfOk result (λ made. spec.NamesSame (net_data net.now) (net_data made)) }
    ensures carries { IfOk result (λ made. spec.CarriesSame net.now made) }
    ensures folded { IfOk result (λ made. spec.IsFolded made.nodes) }
    ensures distinct { IfOk result (λ made. spec.IsDistinct made.nodes) }
    ensures needed { IfOk result (λ made. spec.IsNeeded (net_data made)) }
{
    let folded = fold(alloc, net)?;
    let places = order(alloc, &folded)?;
    moved(alloc, &folded, places.as_slice())
}
