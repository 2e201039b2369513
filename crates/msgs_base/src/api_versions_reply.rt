ghost use Rattle.std.specs.Prelude.{IfOk};
ghost use Rattle.flex_fields.specs.Formats.{ReadsWhole};
ghost use Rattle.flex_fields.specs.Versions.{IsTold};
ghost use Rattle.msgs_base.specs.ApiVersionsReply.{api_version, api_versions_reply};

use crate::fields::{Always, Since, take_fields_at, take_structure_at};
use crate::lent::{PutSince, pairs, put_fields_at};
use flex_fields::{
    Bytes, Cursor, Items, NoMemory, Out, Version, Versioned, WireFault, read_whole_at,
    write_whole_at,
};
use std::alloc::Global;

/// A call and the versions of it that are served.
#[derive(Clone, Copy, Debug)]
pub struct ApiVersion {
    pub api_key: i16,
    pub min_version: i16,
    pub max_version: i16,
}

/// The calls that are served.
#[derive(Debug, Drop)]
pub struct ApiVersionsReply {
    pub error_code: i16,
    pub api_keys: Items<ApiVersion>,
    pub throttle_time_ms: i32,
}

impl Versioned for ApiVersion {
    ghost schema = { api_version };

    #[tactic(auto, unfolding(crate::specs::ApiVersionsReply::api_version))]
    fn take_at(
        alloc: Global,
        version: Version,
        cursor: &mut Cursor<'_>,
    ) -> Result<Self, WireFault> {
        take_structure_at!(
            alloc,
            version,
            cursor,
            ApiVersion {
                api_key: Always,
                min_version: Always,
                max_version: Always,
            }
        )
    }

    fn put_at(&self, version: Version, out: &mut Out) -> Result<(), NoMemory> {
        put_fields_at(
            version,
            out,
            pairs!(&self.api_key, &self.min_version, &self.max_version,),
        )
    }
}

impl Versioned for ApiVersionsReply {
    ghost schema = { api_versions_reply };

    #[tactic(auto, unfolding(crate::specs::ApiVersionsReply::api_versions_reply))]
    fn take_at(
        alloc: Global,
        version: Version,
        cursor: &mut Cursor<'_>,
    ) -> Result<Self, WireFault> {
        take_structure_at!(
            alloc,
            version,
            cursor,
            ApiVersionsReply {
                error_code: Always,
                api_keys: Always,
                throttle_time_ms: Since(1, 0),
            }
        )
    }

    fn put_at(&self, version: Version, out: &mut Out) -> Result<(), NoMemory> {
        put_fields_at(
            version,
            out,
            pairs!(
                &self.error_code,
                &self.api_keys,
                PutSince(1, &self.throttle_time_ms),
            ),
        )
    }
}

/// Reads the body of the reply to ApiVersions of this version. Places count from its first byte.
pub fn read_api_versions_reply(
    alloc: Global,
    version: Version,
    bytes: &[u8],
) -> Result<ApiVersionsReply, WireFault>
    ensures { ReadsWhole (api_versions_reply version).format bytes.now result }
{
    read_whole_at(alloc, version, bytes)
}

/// Writes the body of the reply to ApiVersions in this version. More entries than their number can say there are
/// answered as want of memory.
pub fn write_api_versions_reply(
    alloc: Global,
    version: Version,
    message: &ApiVersionsReply,
) -> Result<Bytes, NoMemory>
    ensures { IfOk result (IsTold (api_versions_reply version) message.now) }
{
    write_whole_at(alloc, version, message)
}
