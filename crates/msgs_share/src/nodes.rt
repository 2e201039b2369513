ghost use Rattle.msgs_share.specs.Nodes.{current_leader, node_endpoint};

use flex_fields::{Cursor, NoMemory, Out, Text, Wire, WireFault, put_structure, take_structure};
use std::alloc::Global;

/// The leader of a partition, and its epoch.
#[derive(Clone, Copy, Debug)]
pub struct CurrentLeader {
    pub leader_id: i32,
    pub leader_epoch: i32,
}

/// A broker and where it is reached.
#[derive(Debug, Drop)]
pub struct NodeEndpoint {
    pub node_id: i32,
    pub host: Text,
    pub port: i32,
    pub rack: Option<Text>,
}

impl Wire for CurrentLeader {
    ghost format = { current_leader };

    #[tactic(auto, unfolding(crate::specs::Nodes::current_leader))]
    fn take(alloc: Global, cursor: &mut Cursor<'_>) -> Result<Self, WireFault> {
        take_structure!(
            alloc,
            cursor,
            CurrentLeader {
                leader_id,
                leader_epoch
            }
        )
    }

    fn put(&self, out: &mut Out) -> Result<(), NoMemory> {
        put_structure!(out, self, [leader_id, leader_epoch])
    }
}

impl Wire for NodeEndpoint {
    ghost format = { node_endpoint };

    #[tactic(auto, unfolding(crate::specs::Nodes::node_endpoint))]
    fn take(alloc: Global, cursor: &mut Cursor<'_>) -> Result<Self, WireFault> {
        take_structure!(
            alloc,
            cursor,
            NodeEndpoint {
                node_id,
                host,
                port,
                rack
            }
        )
    }

    fn put(&self, out: &mut Out) -> Result<(), NoMemory> {
        put_structure!(out, self, [node_id, host, port, rack])
    }
}
