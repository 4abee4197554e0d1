ghost use Rattle.std.specs.Prelude.{◌≡◌, ◌+◌, ◌^◌, ◌↔◌, nat_lt, slice_get, true, IfOk};
ghost use Rattle.std.specs.List.{list_all};
ghost use Rattle.bsv_design.specs.design.Widths.{has_width};
ghost use Rattle.bsv_net.specs.Nets as spec;

use crate::bodies::node_widths;
use crate::net_data::NetData;
use crate::node::{NetNode, Site};
use bsv_bits::OutOfMemory;
use bsv_prim::RegisterInfo;
use sqlite_items::Items;
use std::alloc::Global;

/// Whether a number of 32 bits names each of so many and so many.
fn are_few(inputs: usize, registers: usize) -> bool
    ensures { result ≡ nat_lt (inputs + registers) (2 ^ 32) }
{
    match inputs.checked_add(registers) {
        Some(sum) => u32::try_from(sum).is_ok(),
        None => false,
    }
}

/// Whether numbers of 32 bits name the nodes, and the inputs and the registers together.
fn is_few(net_data: &NetData) -> bool
    ensures { result ≡ spec.is_few net_data.now }
{
    u32::try_from(net_data.nodes.len()).is_ok()
        && are_few(net_data.inputs.len(), net_data.registers.len())
}

/// Whether the input or the register is there that a node names.
fn is_within(inputs: usize, registers: usize, node: NetNode) -> bool
    ensures { result ≡ spec.is_within inputs registers node }
{
    match node {
        NetNode::Input(number) => (number as usize) < inputs,
        NetNode::Register(number) => (number as usize) < registers,
        _ => true,
    }
}

/// Whether each input and each register is there that a node names.
fn are_within(inputs: usize, registers: usize, nodes: &[NetNode]) -> bool
    ensures { result ≡ list_all (spec.is_within inputs registers) nodes.now }
{
    let mut rest = nodes;
    while let Some((node, after)) = rest.split_first() {
        if !is_within(inputs, registers, *node) {
            return false;
        }
        rest = after;
    }
    true
}

/// Whether the node of this place has this width.
fn has_width(widths: &[u32], node: u32, width: u32) -> bool
    ensures { result ≡ has_width (slice_get widths.now node) width }
{
    match widths.get(node as usize) {
        Some(own) => *own == width,
        None => false,
    }
}

/// Whether each input has 1 to 128 bits.
fn inputs_fit(inputs: &[u32]) -> bool
    ensures { result ≡ list_all spec.width_fits inputs.now }
{
    let mut rest = inputs;
    while let Some((width, after)) = rest.split_first() {
        if *width < 1 || 128 < *width {
            return false;
        }
        rest = after;
    }
    true
}

/// Whether there is a next word for each register, of its width.
fn nexts_fit(widths: &[u32], nexts: &[u32], registers: &[RegisterInfo]) -> bool
    ensures { result ≡ spec.nexts_fit widths.now nexts.now registers.now }
{
    let mut rest = nexts;
    let mut left = registers;
    while let Some((next, after)) = rest.split_first() {
        let Some((register, behind)) = left.split_first() else {
            return false;
        };
        if !has_width(widths, *next, register.width) {
            return false;
        }
        rest = after;
        left = behind;
    }
    left.is_empty()
}

/// Whether the nodes of these places have one bit each.
fn are_bits(widths: &[u32], nodes: &[u32]) -> bool
    ensures { result ≡ list_all (spec.is_bit widths.now) nodes.now }
{
    let mut rest = nodes;
    while let Some((node, after)) = rest.split_first() {
        if !has_width(widths, *node, 1) {
            return false;
        }
        rest = after;
    }
    true
}

/// Whether each is the place of a node, or their number.
fn are_names(widths: &[u32], nodes: &[u32]) -> bool
    ensures { result ≡ list_all (spec.names widths.now) nodes.now }
{
    let mut rest = nodes;
    while let Some((node, after)) = rest.split_first() {
        if widths.len() < *node as usize {
            return false;
        }
        rest = after;
    }
    true
}

/// Whether each is the place of a node.
fn are_nodes(widths: &[u32], nodes: &[u32]) -> bool
    ensures { result ≡ list_all (spec.is_node widths.now) nodes.now }
{
    let mut rest = nodes;
    while let Some((node, after)) = rest.split_first() {
        if widths.len() <= *node as usize {
            return false;
        }
        rest = after;
    }
    true
}

/// Whether the nodes of a call are there, and what tells whether it is taken has one bit.
fn is_site(widths: &[u32], site: &Site) -> bool
    ensures { result ≡ spec.is_site widths.now site.now }
{
    has_width(widths, site.taken, 1) && are_nodes(widths, site.args.as_slice())
}

/// Whether the nodes of the calls of an element are there.
fn are_sites(widths: &[u32], sites: &[Site]) -> bool
    ensures { result ≡ list_all (spec.is_site widths.now) sites.now }
{
    let mut rest = sites;
    while let Some((site, after)) = rest.split_first() {
        if !is_site(widths, site) {
            return false;
        }
        rest = after;
    }
    true
}

/// Whether the nodes of the calls of each element are there.
fn sites_fit(widths: &[u32], elements: &[Items<Site>]) -> bool
    ensures { result ≡ list_all (list_all (spec.is_site widths.now)) elements.now }
{
    let mut rest = elements;
    while let Some((sites, after)) = rest.split_first() {
        if !are_sites(widths, sites.as_slice()) {
            return false;
        }
        rest = after;
    }
    true
}

/// Whether what is beside nodes of these widths has those that it needs.
fn is_in_order(widths: &[u32], net_data: &NetData) -> bool
    ensures { result ≡ spec.is_in_order widths.now net_data.now }
{
    inputs_fit(net_data.inputs.as_slice())
        && nexts_fit(
            widths,
            net_data.nexts.as_slice(),
            net_data.registers.as_slice(),
        )
        && are_bits(widths, net_data.fires.as_slice())
        && are_bits(widths, net_data.readies.as_slice())
        && are_names(widths, net_data.results.as_slice())
        && sites_fit(widths, net_data.sites.as_slice())
}

/// Whether a net is in order.
pub(crate) fn is_net(alloc: Global, net_data: &NetData) -> Result<bool, OutOfMemory>
    ensures { IfOk result (λ b. (b ≡ true) ↔ spec.IsNet net_data.now) }
{
    if !is_few(net_data) {
        return Ok(false);
    }
    if !are_within(
        net_data.inputs.len(),
        net_data.registers.len(),
        net_data.nodes.as_slice(),
    ) {
        return Ok(false);
    }
    match node_widths(alloc, net_data)? {
        Some(found) => Ok(is_in_order(found.as_slice(), net_data)),
        None => Ok(false),
    }
}
