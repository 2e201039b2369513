ghost use Rattle.msgs_state.specs.StateBatch.{state_batch};

use flex_fields::{Cursor, NoMemory, Out, Wire, WireFault, put_structure, take_structure};
use std::alloc::Global;

/// Records in one delivery state: 0 available, 2 acknowledged, 4 archived.
#[derive(Clone, Copy, Debug)]
pub struct StateBatch {
    pub first_offset: i64,
    pub last_offset: i64,
    pub delivery_state: i8,
    pub delivery_count: i16,
}

impl Wire for StateBatch {
    ghost format = { state_batch };

    #[tactic(auto, unfolding(crate::specs::StateBatch::state_batch))]
    fn take(alloc: Global, cursor: &mut Cursor<'_>) -> Result<Self, WireFault> {
        take_structure!(
            alloc,
            cursor,
            StateBatch {
                first_offset,
                last_offset,
                delivery_state,
                delivery_count
            }
        )
    }

    fn put(&self, out: &mut Out) -> Result<(), NoMemory> {
        put_structure!(
            out,
            self,
            [first_offset, last_offset, delivery_state, delivery_count]
        )
    }
}
