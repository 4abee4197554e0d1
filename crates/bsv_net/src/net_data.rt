use crate::node::{NetNode, Site};
use bsv_prim::RegisterInfo;
use sqlite_items::Items;

/// What a net is made of. Numbers name nodes by their places.
#[derive(Drop)]
pub struct NetData {
    /// The widths of its inputs, in bits.
    pub inputs: Items<u32>,
    pub registers: Items<RegisterInfo>,
    pub nodes: Items<NetNode>,
    /// Of each register the node whose word it takes over at the end of a clock.
    pub nexts: Items<u32>,
    /// Of each element the node that is 1 where it fires.
    pub fires: Items<u32>,
    /// Of each element the node that is 1 where it is ready.
    pub readies: Items<u32>,
    /// Of each element the node of what it gives, or the number of nodes where it gives nothing.
    pub results: Items<u32>,
    /// Of each element the nodes of its calls.
    pub sites: Items<Items<Site>>,
}
