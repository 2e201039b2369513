ghost use Rattle.std.specs.Prelude.{IfOk};
ghost use Rattle.flex_fields.specs.Formats.{ReadsWhole, IsSpelling};
ghost use Rattle.msgs_base.specs.FindCoordinatorReply.{coordinator, find_coordinator_reply};

use flex_fields::{
    Bytes, Cursor, Items, NoMemory, Out, Text, Wire, WireFault, put_structure, read_whole,
    take_structure, write_whole,
};
use std::alloc::Global;

/// The coordinator of one key and where it is reached, or an error.
#[derive(Debug, Drop)]
pub struct Coordinator {
    pub key: Text,
    pub node_id: i32,
    pub host: Text,
    pub port: i32,
    pub error_code: i16,
    pub error_message: Option<Text>,
}

/// The coordinators that were asked for.
#[derive(Debug, Drop)]
pub struct FindCoordinatorReply {
    pub throttle_time_ms: i32,
    pub coordinators: Items<Coordinator>,
}

impl Wire for Coordinator {
    ghost format = { coordinator };

    #[tactic(auto, unfolding(crate::specs::FindCoordinatorReply::coordinator))]
    fn take(alloc: Global, cursor: &mut Cursor<'_>) -> Result<Self, WireFault> {
        take_structure!(
            alloc,
            cursor,
            Coordinator {
                key,
                node_id,
                host,
                port,
                error_code,
                error_message
            }
        )
    }

    fn put(&self, out: &mut Out) -> Result<(), NoMemory> {
        put_structure!(
            out,
            self,
            [key, node_id, host, port, error_code, error_message]
        )
    }
}

impl Wire for FindCoordinatorReply {
    ghost format = { find_coordinator_reply };

    #[tactic(auto, unfolding(crate::specs::FindCoordinatorReply::find_coordinator_reply))]
    fn take(alloc: Global, cursor: &mut Cursor<'_>) -> Result<Self, WireFault> {
        take_structure!(
            alloc,
            cursor,
            FindCoordinatorReply {
                throttle_time_ms,
                coordinators
            }
        )
    }

    fn put(&self, out: &mut Out) -> Result<(), NoMemory> {
        put_structure!(out, self, [throttle_time_ms, coordinators])
    }
}

/// Reads the body of the reply to FindCoordinator. Places count from its first byte.
pub fn read_find_coordinator_reply(
    alloc: Global,
    bytes: &[u8],
) -> Result<FindCoordinatorReply, WireFault>
    ensures { ReadsWhole find_coordinator_reply bytes.now result }
{
    read_whole(alloc, bytes)
}

/// Writes the body of the reply to FindCoordinator.
pub fn write_find_coordinator_reply(
    alloc: Global,
    message: &FindCoordinatorReply,
) -> Result<Bytes, NoMemory>
    ensures { IfOk result (IsSpelling find_coordinator_reply message.now) }
{
    write_whole(alloc, message)
}
