ghost use Rattle.std.specs.Prelude.{IfOk, Option};
ghost use Rattle.flex_fields.specs.Formats.{ReadsWhole, IsSpelling};
ghost use Rattle.msgs_group.specs.declared.heartbeat_reply.Assignment.{Assignment};
ghost use Rattle.msgs_group.specs.HeartbeatReply.{assigned_topic, assignment, heartbeat_reply, optional};

use crate::optional::{Optional, put_optional};
use flex_fields::{
    Bytes, Cursor, Items, NoMemory, Out, Put, Text, Wire, WireFault, put_fields, put_structure,
    read_whole, take_fields, take_structure, write_whole,
};
use std::alloc::Global;
use uuid::Uuid;

/// The partitions of one topic that a member is to read.
#[derive(Debug, Drop)]
pub struct AssignedTopic {
    pub topic_id: Uuid,
    pub partitions: Items<i32>,
}

/// All that a member is to read.
#[derive(Debug, Drop)]
pub struct Assignment {
    pub topic_partitions: Items<AssignedTopic>,
}

/// The epoch that a member has now, when it is to send the next heartbeat, and its assignment where it may be new; or
/// an error.
#[derive(Debug, Drop)]
pub struct HeartbeatReply {
    pub throttle_time_ms: i32,
    pub error_code: i16,
    pub error_message: Option<Text>,
    pub member_id: Option<Text>,
    pub member_epoch: i32,
    pub heartbeat_interval_ms: i32,
    pub assignment: Option<Assignment>,
}

impl Wire for AssignedTopic {
    ghost format = { assigned_topic };

    #[tactic(auto, unfolding(crate::specs::HeartbeatReply::assigned_topic))]
    fn take(alloc: Global, cursor: &mut Cursor<'_>) -> Result<Self, WireFault> {
        take_structure!(
            alloc,
            cursor,
            AssignedTopic {
                topic_id,
                partitions
            }
        )
    }

    fn put(&self, out: &mut Out) -> Result<(), NoMemory> {
        put_structure!(out, self, [topic_id, partitions])
    }
}

impl Wire for Assignment {
    ghost format = { assignment };

    #[tactic(auto, unfolding(crate::specs::HeartbeatReply::assignment))]
    fn take(alloc: Global, cursor: &mut Cursor<'_>) -> Result<Self, WireFault> {
        take_structure!(alloc, cursor, Assignment { topic_partitions })
    }

    fn put(&self, out: &mut Out) -> Result<(), NoMemory> {
        put_structure!(out, self, [topic_partitions])
    }
}

// An assignment or null, as a field that is lent to be written.
#[derive(Clone, Copy)]
struct LentAssignment<'a> {
    assignment: &'a Option<Assignment>,
}

impl Put for LentAssignment<'_> {
    ghost Value = { Option Assignment };

    ghost format = { optional assignment };

    ghost value = { λ a. a.assignment.now };

    fn put_behind(self, out: &mut Out) -> Result<(), NoMemory> {
        put_optional(out, self.assignment)
    }
}

impl Wire for HeartbeatReply {
    ghost format = { heartbeat_reply };

    #[tactic(auto, unfolding(crate::specs::HeartbeatReply::heartbeat_reply))]
    fn take(alloc: Global, cursor: &mut Cursor<'_>) -> Result<Self, WireFault> {
        let (throttle_time_ms, (error_code, (error_message, (member_id, member)))) = take_fields(
            alloc, cursor,
        )?;
        let (member_epoch, (heartbeat_interval_ms, assignment)) = member;
        let assignment = Optional::into_option(assignment);
        Ok(HeartbeatReply {
            throttle_time_ms,
            error_code,
            error_message,
            member_id,
            member_epoch,
            heartbeat_interval_ms,
            assignment,
        })
    }

    fn put(&self, out: &mut Out) -> Result<(), NoMemory> {
        let assignment = LentAssignment {
            assignment: &self.assignment,
        };
        let member = (
            &self.member_epoch,
            (&self.heartbeat_interval_ms, assignment),
        );
        let answered = (
            &self.error_code,
            (&self.error_message, (&self.member_id, member)),
        );
        put_fields(out, (&self.throttle_time_ms, answered))
    }
}

/// Reads the body of the reply to ShareGroupHeartbeat. Places count from its first byte.
pub fn read_heartbeat_reply(alloc: Global, bytes: &[u8]) -> Result<HeartbeatReply, WireFault>
    ensures { ReadsWhole heartbeat_reply bytes.now result }
{
    read_whole(alloc, bytes)
}

/// Writes the body of the reply to ShareGroupHeartbeat.
pub fn write_heartbeat_reply(alloc: Global, message: &HeartbeatReply) -> Result<Bytes, NoMemory>
    ensures { IfOk result (IsSpelling heartbeat_reply message.now) }
{
    write_whole(alloc, message)
}
