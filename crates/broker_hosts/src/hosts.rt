// All shards as a broker holds them.
use crate::slot::{ForeignSlot, PartSlot};
use broker_shards::MembersHost;
use edge_io::Disk;

/// The shards: those of the hosted partitions, in the order of their numbers, the members of all groups, and foreign
/// state.
#[derive(Drop)]
pub struct Hosts<D: Disk> {
    pub parts: Vec<PartSlot<D>>,
    pub members: MembersHost,
    pub foreign: ForeignSlot<D>,
}
