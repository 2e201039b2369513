// The rows of a reply under their topics.
ghost use Rattle.std.specs.Prelude.{◌≡◌, map, IfOk, OnOk};
ghost use Rattle.share_calls.specs.Fetch.{row_of_topic};
ghost use Rattle.share_calls.specs.Visits.{told_rows};
ghost use Rattle.share_calls.specs.Rows.{with_row, grouped, topics_of};

use crate::fetch_rows::FetchRow;
use crate::fetched_row::FetchedRow;
use flex_fields::Items;
use indexmap::IndexMap;
use msgs_share::ShareTopic;
use share_model::NoMemory;
use std::alloc::Global;
use std::collections::VecDeque;
use uuid::Uuid;

type Groups = IndexMap<Uuid, Vec<FetchedRow>>;

// A row goes under its topic, which stands last where it had none.
fn put_row(alloc: Global, groups: &mut Groups, row: FetchRow) -> Result<(), NoMemory>
    ensures { OnOk result (map (λ g. (g.0, g.1.items)) groups.new.entries
        ≡ with_row (map (λ g. (g.0, g.1.items)) groups.old.entries) (row_of_topic row)) }
{
    let FetchRow {
        topic_id,
        partition,
    } = row;
    if let Some(partitions) = groups.get_mut(&topic_id) {
        partitions.push(partition)?;
        return Ok(());
    }
    let mut partitions = Vec::new(alloc);
    partitions.push(partition)?;
    groups.insert(topic_id, partitions)?;
    Ok(())
}

fn group(alloc: Global, rows: VecDeque<Option<FetchRow>>) -> Result<Groups, NoMemory>
    ensures { IfOk result (λ groups. map (λ g. (g.0, g.1.items)) groups.entries ≡ grouped (map row_of_topic (told_rows rows.items))) }
{
    let mut groups = IndexMap::new(alloc);
    for row in rows {
        if let Some(row) = row {
            put_row(alloc, &mut groups, row)?;
        }
    }
    Ok(groups)
}

// A list of a message. There is no memory for one of 2^32 - 1 items.
fn items<T: Drop>(list: Vec<T>) -> Result<Items<T>, NoMemory>
    ensures { IfOk result (λ items. items ≡ list.items) }
{
    if list.len() >= u32::MAX as usize {
        return Err(NoMemory);
    }
    Ok(Items::new(list))
}

fn topics_in(alloc: Global, groups: Groups) -> Result<Items<ShareTopic<FetchedRow>>, NoMemory>
    ensures { IfOk result (λ topics. topics ≡ topics_of (map (λ g. (g.0, g.1.items)) groups.entries)) }
{
    let mut topics = Vec::with_capacity(alloc, groups.len())?;
    for (topic_id, partitions) in groups {
        let partitions = items(partitions)?;
        topics.push(ShareTopic {
            topic_id,
            partitions,
        })?;
    }
    items(topics)
}

/// The rows that are told, under their topics, in the order of the topics' first rows.
pub fn topics_of(
    alloc: Global,
    rows: VecDeque<Option<FetchRow>>,
) -> Result<Items<ShareTopic<FetchedRow>>, NoMemory>
    ensures { IfOk result (λ topics. topics ≡ topics_of (grouped (map row_of_topic (told_rows rows.items)))) }
{
    let groups = group(alloc, rows)?;
    topics_in(alloc, groups)
}
