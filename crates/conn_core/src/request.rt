//! The requests that are served: with what each begins.
//!
//! A request or a reply is dropped by a call before a `?`: at the `?` its drop would be proved where it stands, each
//! time anew.
ghost use Rattle.std.specs.Prelude.{◌≡◌, List, IfOk};
ghost use Rattle.share_calls.specs.Changes.{Fits};
ghost use Rattle.conn_core.specs.Beginning.{Begins, metadata_begins, coordinator_begins, versions_begins, produce_begins, delete_records_begins, fetch_begins, acknowledge_begins};
ghost use Rattle.conn_core.specs.Beginning.{heartbeat_begins, initialize_begins, read_begins, write_begins, delete_begins};

use crate::begun::Begun;
use crate::coordinators::coordinator_body;
use crate::hand::{Hand, under_name};
use crate::kept::Kept;
use crate::metadata::metadata_reply;
use crate::versions::versions_body;
use call_fold::Stage;
use flex_fields::Version;
use log_calls::{delete_call, produce_call};
use msgs_base::{
    ApiVersionsRequest, DeleteRecordsRequest, FindCoordinatorRequest, MetadataRequest,
    ProduceRequest, write_metadata_reply,
};
use msgs_group::HeartbeatRequest;
use msgs_share::{ShareAckRequest, ShareFetchRequest};
use msgs_state::{
    DeleteShareGroupStateRequest, InitializeShareGroupStateRequest, ReadShareGroupStateRequest,
    WriteShareGroupStateRequest,
};
use share_calls::{ack_call, fetch_call, heartbeat_call};
use share_model::NoMemory;
use share_session::{SessionChange, Sessions};
use state_calls::{Delete, Initialize, Read, Write, state_call};
use std::alloc::Global;
use topic_conf::Config;

/// A message that asks for a served call.
pub trait Request: Sized + Drop {
    ghost use Rattle.flex_fields.specs.declared.version.Version.{Version as VersionParts};

    /// With what the call begins in a version of it, by the share sessions of its connection.
    ghost begins: { VersionParts → Begins Self };

    /// It begins. The sessions aren't changed yet; the connection has room for the change.
    fn begin(
        self,
        alloc: Global,
        version: Version,
        conf: &Config,
        sessions: &Sessions,
    ) -> Result<Begun, NoMemory>
        ensures begun { IfOk result (λ begun. begun ≡ begins version conf.now sessions.now self) }
        ensures fits { IfOk result (λ begun. Fits begun.change sessions.now) };
}

// What is done to the sessions, apart.
fn kept_change(
    alloc: Global,
    change: Option<SessionChange>,
) -> Result<Option<Kept<SessionChange>>, NoMemory>
    ensures { IfOk result (λ kept. kept ≡ change) }
{
    match change {
        Some(change) => {
            let kept = Kept::new(alloc, change)?;
            Ok(Some(kept))
        }
        None => Ok(None),
    }
}

// What a call begins with, under its name in hand.
macro_rules! begun {
    ($alloc:expr, $stage:expr) => {{
        let stage = under_name($alloc, $stage)?;
        Ok(Begun {
            stage,
            change: None,
        })
    }};
    ($alloc:expr, $stage:expr, $change:expr) => {
        match kept_change($alloc, $change) {
            Ok(change) => match under_name($alloc, $stage) {
                Ok(stage) => Ok(Begun { stage, change }),
                Err(NoMemory) => {
                    drop(change);
                    Err(NoMemory)
                }
            },
            Err(NoMemory) => {
                drop($stage);
                Err(NoMemory)
            }
        }
    };
}

// A call that has its reply at once, and no sessions.
macro_rules! replied {
    ($body:expr) => {
        Ok(Begun {
            stage: Stage::Says(Some($body)),
            change: None,
        })
    };
}

impl Request for MetadataRequest {
    ghost begins = { metadata_begins };

    fn begin(
        self,
        alloc: Global,
        version: Version,
        conf: &Config,
        _: &Sessions,
    ) -> Result<Begun, NoMemory> {
        let reply = metadata_reply(alloc, version, conf, &self);
        drop(self);
        let reply = reply?;
        let body = write_metadata_reply(alloc, version, &reply);
        drop(reply);
        replied!(body?)
    }
}

impl Request for FindCoordinatorRequest {
    ghost begins = { λ _. coordinator_begins };

    fn begin(
        self,
        alloc: Global,
        _: Version,
        conf: &Config,
        _: &Sessions,
    ) -> Result<Begun, NoMemory> {
        let body = coordinator_body(alloc, conf, &self)?;
        replied!(body)
    }
}

impl Request for ApiVersionsRequest {
    ghost begins = { versions_begins };

    fn begin(
        self,
        alloc: Global,
        version: Version,
        conf: &Config,
        _: &Sessions,
    ) -> Result<Begun, NoMemory> {
        let body = versions_body(alloc, version, conf.versions())?;
        replied!(body)
    }
}

impl Request for ProduceRequest {
    ghost begins = { produce_begins };

    fn begin(
        self,
        alloc: Global,
        version: Version,
        conf: &Config,
        _: &Sessions,
    ) -> Result<Begun, NoMemory> {
        let stage = produce_call(alloc, version, conf, self)?;
        begun!(alloc, stage)
    }
}

impl Request for DeleteRecordsRequest {
    ghost begins = { λ _. delete_records_begins };

    fn begin(
        self,
        alloc: Global,
        _: Version,
        conf: &Config,
        _: &Sessions,
    ) -> Result<Begun, NoMemory> {
        let stage = delete_call(alloc, conf, self)?;
        begun!(alloc, stage)
    }
}

impl Request for ShareFetchRequest {
    ghost begins = { λ _. fetch_begins };

    fn begin(
        self,
        alloc: Global,
        _: Version,
        conf: &Config,
        sessions: &Sessions,
    ) -> Result<Begun, NoMemory> {
        let begun = fetch_call(alloc, conf, sessions, &self);
        drop(self);
        let (stage, change) = begun?;
        begun!(alloc, stage, change)
    }
}

impl Request for ShareAckRequest {
    ghost begins = { λ _. acknowledge_begins };

    fn begin(
        self,
        alloc: Global,
        _: Version,
        conf: &Config,
        sessions: &Sessions,
    ) -> Result<Begun, NoMemory> {
        let begun = ack_call(alloc, conf, sessions, &self);
        drop(self);
        let (stage, change) = begun?;
        begun!(alloc, stage, change)
    }
}

impl Request for HeartbeatRequest {
    ghost begins = { λ _. heartbeat_begins };

    fn begin(self, alloc: Global, _: Version, _: &Config, _: &Sessions) -> Result<Begun, NoMemory> {
        let stage = heartbeat_call(alloc, self)?;
        begun!(alloc, stage)
    }
}

impl Request for InitializeShareGroupStateRequest {
    ghost begins = { λ _. initialize_begins };

    fn begin(
        self,
        alloc: Global,
        _: Version,
        conf: &Config,
        _: &Sessions,
    ) -> Result<Begun, NoMemory> {
        let stage = state_call(alloc, conf, Initialize, self)?;
        begun!(alloc, stage)
    }
}

impl Request for ReadShareGroupStateRequest {
    ghost begins = { λ _. read_begins };

    fn begin(
        self,
        alloc: Global,
        _: Version,
        conf: &Config,
        _: &Sessions,
    ) -> Result<Begun, NoMemory> {
        let stage = state_call(alloc, conf, Read, self)?;
        begun!(alloc, stage)
    }
}

impl Request for WriteShareGroupStateRequest {
    ghost begins = { λ _. write_begins };

    fn begin(
        self,
        alloc: Global,
        _: Version,
        conf: &Config,
        _: &Sessions,
    ) -> Result<Begun, NoMemory> {
        let stage = state_call(alloc, conf, Write, self)?;
        begun!(alloc, stage)
    }
}

impl Request for DeleteShareGroupStateRequest {
    ghost begins = { λ _. delete_begins };

    fn begin(
        self,
        alloc: Global,
        _: Version,
        conf: &Config,
        _: &Sessions,
    ) -> Result<Begun, NoMemory> {
        let stage = state_call(alloc, conf, Delete, self)?;
        begun!(alloc, stage)
    }
}
