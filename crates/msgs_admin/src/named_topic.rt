ghost use Rattle.msgs_admin.specs.NamedTopic.{named_topic};

use flex_fields::{
    Cursor, Items, NoMemory, Out, Text, Wire, WireFault, put_structure, take_structure,
};
use std::alloc::Global;

/// What is said of the partitions of one topic.
#[derive(Debug, Drop)]
pub struct NamedTopic<P> {
    pub name: Text,
    pub partitions: Items<P>,
}

impl<P: Wire> Wire for NamedTopic<P> {
    ghost format = { named_topic P.format };

    #[tactic(auto, unfolding(crate::specs::NamedTopic::named_topic))]
    fn take(alloc: Global, cursor: &mut Cursor<'_>) -> Result<Self, WireFault> {
        take_structure!(alloc, cursor, NamedTopic { name, partitions })
    }

    fn put(&self, out: &mut Out) -> Result<(), NoMemory> {
        put_structure!(out, self, [name, partitions])
    }
}
