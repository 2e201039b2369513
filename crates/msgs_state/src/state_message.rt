ghost use Rattle.msgs_state.specs.StateMessage.{state_topic, state_request, state_reply};

use flex_fields::{
    Cursor, Items, NoMemory, Out, Text, Wire, WireFault, put_structure, take_structure,
};
use std::alloc::Global;
use uuid::Uuid;

/// What is said of the partitions of one topic.
#[derive(Debug, Drop)]
pub struct StateTopic<P> {
    pub topic_id: Uuid,
    pub partitions: Items<P>,
}

/// The one form of the requests: a group, and what is asked of its partitions.
#[derive(Debug, Drop)]
pub struct StateRequest<P> {
    pub group_id: Text,
    pub topics: Items<StateTopic<P>>,
}

/// The one form of the replies.
#[derive(Debug, Drop)]
pub struct StateReply<P> {
    pub results: Items<StateTopic<P>>,
}

impl<P: Wire> Wire for StateTopic<P> {
    ghost format = { state_topic P.format };

    #[tactic(auto, unfolding(crate::specs::StateMessage::state_topic))]
    fn take(alloc: Global, cursor: &mut Cursor<'_>) -> Result<Self, WireFault> {
        take_structure!(
            alloc,
            cursor,
            StateTopic {
                topic_id,
                partitions
            }
        )
    }

    fn put(&self, out: &mut Out) -> Result<(), NoMemory> {
        put_structure!(out, self, [topic_id, partitions])
    }
}

impl<P: Wire> Wire for StateRequest<P> {
    ghost format = { state_request P.format };

    #[tactic(auto, unfolding(crate::specs::StateMessage::state_request))]
    fn take(alloc: Global, cursor: &mut Cursor<'_>) -> Result<Self, WireFault> {
        take_structure!(alloc, cursor, StateRequest { group_id, topics })
    }

    fn put(&self, out: &mut Out) -> Result<(), NoMemory> {
        put_structure!(out, self, [group_id, topics])
    }
}

impl<P: Wire> Wire for StateReply<P> {
    ghost format = { state_reply P.format };

    #[tactic(auto, unfolding(crate::specs::StateMessage::state_reply))]
    fn take(alloc: Global, cursor: &mut Cursor<'_>) -> Result<Self, WireFault> {
        take_structure!(alloc, cursor, StateReply { results })
    }

    fn put(&self, out: &mut Out) -> Result<(), NoMemory> {
        put_structure!(out, self, [results])
    }
}
