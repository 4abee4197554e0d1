ghost use Rattle.std.specs.Prelude.{◌≡◌, ◌<◌, [], IfOk, OnOk, map};
ghost use Rattle.std.specs.Option.{option_copied};
ghost use Rattle.bsv_design.specs.parts.Kinds.{kind_table};
ghost use Rattle.bsv_ports.specs.Ports as spec;

use crate::call_sites::CallSite;
use bsv_bits::{OutOfMemory, Word};
use bsv_design::Kind;
use bsv_net::{MethodPort, NetNode, Site, add, both, either, node_at};
use bsv_prim::Primitive;
use sqlite_items::{Items, at};
use std::alloc::Global;

/// The nodes of the elements that are in a net: the one that tells whether an element fires, and those of its calls.
#[derive(Clone, Copy)]
pub struct Firing<'a> {
    pub fires: &'a [u32],
    pub sites: &'a [Items<Site>],
}

/// Of two arguments each, the first one where the bit is 1.
#[tactic(auto, unfolding(crate::specs::Ports::all_picked))]
fn pick_all(
    alloc: Global,
    nodes: &mut Items<NetNode>,
    live: u32,
    first: &[u32],
    second: &[u32],
) -> Result<Items<u32>, OutOfMemory>
    ensures nodes { OnOk result (nodes.new
        ≡ (spec.all_picked nodes.old live [] first.now second.now).nodes) }
    ensures places { IfOk result (λ places. places
        ≡ (spec.all_picked nodes.old live [] first.now second.now).places) }
{
    let mut places = Items::new(alloc);
    let mut firsts = first;
    let mut seconds = second;
    while let Some((one, more)) = firsts.split_first() {
        let Some((other, others)) = seconds.split_first() else {
            return Ok(places);
        };
        let place = add(nodes, NetNode::Pick(live, *one, *other))?;
        places.push(place)?;
        firsts = more;
        seconds = others;
    }
    Ok(places)
}

/// One more call site after those so far. The node is 1 where it is live.
fn merge(
    alloc: Global,
    nodes: &mut Items<NetNode>,
    so_far: Option<MethodPort>,
    live: u32,
    args: &[u32],
) -> Result<MethodPort, OutOfMemory>
    ensures nodes { OnOk result (nodes.new
        ≡ (spec.merged nodes.old so_far live args.now).nodes) }
    ensures port { IfOk result (λ port. port
        ≡ (spec.merged nodes.old so_far live args.now).port) }
{
    let Some(port) = so_far else {
        let args = Items::from_slice(alloc, args)?;
        return Ok(MethodPort { called: live, args });
    };
    let called = either(nodes, port.called, live)?;
    let args = pick_all(alloc, nodes, live, args, port.args.as_slice())?;
    Ok(MethodPort { called, args })
}

/// The nodes of the call at a call site, where its element is in the net.
fn site_at<'a>(sites: &'a [Items<Site>], call_site: CallSite) -> Option<&'a Site>
    ensures { option_copied result ≡ spec.site_at sites.entry.now call_site }
{
    match at(sites, call_site.element as usize) {
        Some(found) => at(found.as_slice(), call_site.call as usize),
        None => None,
    }
}

/// A call site, after those so far, where it calls the method.
fn at_call_site(
    alloc: Global,
    nodes: &mut Items<NetNode>,
    firing: Firing<'_>,
    method: u32,
    so_far: Option<MethodPort>,
    call_site: CallSite,
) -> Result<Option<MethodPort>, OutOfMemory>
    ensures nodes { OnOk result (nodes.new ≡ (spec.at_call_site firing.entry.fires.now
        firing.entry.sites.now method nodes.old so_far call_site).nodes) }
    ensures port { IfOk result (λ port. port ≡ (spec.at_call_site firing.entry.fires.now
        firing.entry.sites.now method nodes.old so_far call_site).port) }
{
    if call_site.method != method {
        return Ok(so_far);
    }
    let Some(site) = site_at(firing.sites, call_site) else {
        return Ok(so_far);
    };
    let live = both(nodes, node_at(firing.fires, call_site.element), site.taken)?;
    let port = merge(alloc, nodes, so_far, live, site.args.as_slice())?;
    Ok(Some(port))
}

/// The call sites, one after the other.
#[tactic(auto, unfolding(crate::specs::Ports::at_call_sites))]
fn at_call_sites(
    alloc: Global,
    nodes: &mut Items<NetNode>,
    firing: Firing<'_>,
    method: u32,
    call_sites: &[CallSite],
) -> Result<Option<MethodPort>, OutOfMemory>
    ensures nodes { OnOk result (nodes.new ≡ (spec.at_call_sites firing.entry.fires.now
        firing.entry.sites.now method nodes.old None call_sites.now).nodes) }
    ensures port { IfOk result (λ port. port ≡ (spec.at_call_sites firing.entry.fires.now
        firing.entry.sites.now method nodes.old None call_sites.now).port) }
{
    let mut so_far = None;
    let mut rest = call_sites;
    while let Some((call_site, after)) = rest.split_first() {
        so_far = at_call_site(alloc, nodes, firing, method, so_far, *call_site)?;
        rest = after;
    }
    Ok(so_far)
}

/// A word that is 0 for each argument of the method.
#[tactic(auto, using(crate::proofs::Zeros::zeros_more), unfolding(crate::specs::Ports::zeros))]
fn zeros(
    alloc: Global,
    nodes: &mut Items<NetNode>,
    kind: &Kind,
    method: u32,
) -> Result<Items<u32>, OutOfMemory>
    requires { method < (kind_table kind.now).methods }
    ensures nodes { OnOk result (nodes.new ≡ (spec.all_zeros (kind_table kind.now) method
        nodes.old).nodes) }
    ensures places { IfOk result (λ places. places
        ≡ (spec.all_zeros (kind_table kind.now) method nodes.old).places) }
{
    let mut places = Items::new(alloc);
    for number in 0..kind.arity(method) {
        let zero = Word::zero(kind.argument_width(method, number));
        let place = add(nodes, NetNode::Constant(zero))?;
        places.push(place)?;
    }
    Ok(places)
}

/// The nodes of a method of a part, from the call sites on it. The node `none` is a bit that is 0.
#[tactic(auto, unfolding(crate::specs::Ports::port))]
pub fn port(
    alloc: Global,
    nodes: &mut Items<NetNode>,
    kind: &Kind,
    method: u32,
    firing: Firing<'_>,
    call_sites: &[CallSite],
    none: u32,
) -> Result<MethodPort, OutOfMemory>
    requires { method < (kind_table kind.now).methods }
    ensures nodes { OnOk result (nodes.new ≡ (spec.port (kind_table kind.now) none
        firing.entry.fires.now firing.entry.sites.now method nodes.old call_sites.now).nodes) }
    ensures port { IfOk result (λ port. port ≡ (spec.port (kind_table kind.now) none
        firing.entry.fires.now firing.entry.sites.now method nodes.old call_sites.now).port) }
{
    if let Some(port) = at_call_sites(alloc, nodes, firing, method, call_sites)? {
        return Ok(port);
    }
    let args = zeros(alloc, nodes, kind, method)?;
    Ok(MethodPort { called: none, args })
}
