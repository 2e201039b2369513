// The reply of a state call, which has the form of its request.
ghost use Rattle.std.specs.Prelude.{◌≡◌, IfOk};
ghost use Rattle.state_calls.specs.StateCalls.{rows_by_topic, state_body};

use crate::place::Shape;
use call_fold::next_rows;
use flex_fields::{Bytes, Items, Wire, write_whole};
use msgs_state::{StateReply, StateTopic};
use share_model::NoMemory;
use std::alloc::Global;
use std::collections::VecDeque;

// The rows under their topics.
fn group_rows<R: Drop>(
    alloc: Global,
    shape: Items<Shape>,
    mut rows: VecDeque<R>,
) -> Result<Items<StateTopic<R>>, NoMemory>
    ensures { IfOk result (λ topics. topics ≡ rows_by_topic shape rows.items) }
{
    let shape = shape.into_vec();
    let mut topics = Vec::with_capacity(alloc, shape.len())?;
    for one in shape {
        let partitions = next_rows(alloc, one.count, &mut rows)?;
        topics.push(StateTopic {
            topic_id: one.topic,
            partitions,
        })?;
    }
    Ok(Items::new(topics))
}

/// The body of the reply with these rows.
pub fn state_body<R: Wire>(
    alloc: Global,
    shape: Items<Shape>,
    rows: VecDeque<R>,
) -> Result<Option<Bytes>, NoMemory>
    ensures { IfOk result (λ body. body ≡ state_body R.format shape rows.items) }
{
    let results = group_rows(alloc, shape, rows)?;
    let body = write_whole(alloc, &StateReply { results })?;
    Ok(Some(body))
}
