ghost use Rattle.std.specs.Prelude.{IfOk};
ghost use Rattle.flex_fields.specs.Formats.{ReadsWhole, IsSpelling};
ghost use Rattle.msgs_base.specs.FindCoordinatorRequest.{find_coordinator_request};

use crate::texts::Texts;
use flex_fields::{
    Bytes, Cursor, NoMemory, Out, Wire, WireFault, put_structure, read_whole, take_structure,
    write_whole,
};
use std::alloc::Global;

/// Asks who coordinates groups, or transactions, with these keys.
#[derive(Debug, Drop)]
pub struct FindCoordinatorRequest {
    pub key_type: i8,
    pub coordinator_keys: Texts,
}

impl Wire for FindCoordinatorRequest {
    ghost format = { find_coordinator_request };

    #[tactic(auto, unfolding(crate::specs::FindCoordinatorRequest::find_coordinator_request))]
    fn take(alloc: Global, cursor: &mut Cursor<'_>) -> Result<Self, WireFault> {
        take_structure!(
            alloc,
            cursor,
            FindCoordinatorRequest {
                key_type,
                coordinator_keys
            }
        )
    }

    fn put(&self, out: &mut Out) -> Result<(), NoMemory> {
        put_structure!(out, self, [key_type, coordinator_keys])
    }
}

/// Reads the body of a FindCoordinator request. Places count from its first byte.
pub fn read_find_coordinator_request(
    alloc: Global,
    bytes: &[u8],
) -> Result<FindCoordinatorRequest, WireFault>
    ensures { ReadsWhole find_coordinator_request bytes.now result }
{
    read_whole(alloc, bytes)
}

/// Writes the body of a FindCoordinator request.
pub fn write_find_coordinator_request(
    alloc: Global,
    message: &FindCoordinatorRequest,
) -> Result<Bytes, NoMemory>
    ensures { IfOk result (IsSpelling find_coordinator_request message.now) }
{
    write_whole(alloc, message)
}
