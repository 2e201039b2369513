ghost use Rattle.std.specs.Prelude.{IfOk};
ghost use Rattle.flex_fields.specs.Formats.{ReadsWhole, IsSpelling};
ghost use Rattle.msgs_base.specs.ApiVersionsRequest.{api_versions_request};

use flex_fields::{
    Bytes, Cursor, NoMemory, Out, Text, Wire, WireFault, put_structure, read_whole, take_structure,
    write_whole,
};
use std::alloc::Global;

/// Asks which calls are served.
#[derive(Debug, Drop)]
pub struct ApiVersionsRequest {
    pub client_software_name: Text,
    pub client_software_version: Text,
}

impl Wire for ApiVersionsRequest {
    ghost format = { api_versions_request };

    #[tactic(auto, unfolding(crate::specs::ApiVersionsRequest::api_versions_request))]
    fn take(alloc: Global, cursor: &mut Cursor<'_>) -> Result<Self, WireFault> {
        take_structure!(
            alloc,
            cursor,
            ApiVersionsRequest {
                client_software_name,
                client_software_version
            }
        )
    }

    fn put(&self, out: &mut Out) -> Result<(), NoMemory> {
        put_structure!(out, self, [client_software_name, client_software_version])
    }
}

/// Reads the body of an ApiVersions request. Places count from its first byte.
pub fn read_api_versions_request(
    alloc: Global,
    bytes: &[u8],
) -> Result<ApiVersionsRequest, WireFault>
    ensures { ReadsWhole api_versions_request bytes.now result }
{
    read_whole(alloc, bytes)
}

/// Writes the body of an ApiVersions request.
pub fn write_api_versions_request(
    alloc: Global,
    message: &ApiVersionsRequest,
) -> Result<Bytes, NoMemory>
    ensures { IfOk result (IsSpelling api_versions_request message.now) }
{
    write_whole(alloc, message)
}
