// What is asked about a group, and what the answers tell.
ghost use Rattle.std.specs.Prelude.{◌≡◌, ◌≤◌, ◌++◌, map, pos, IfOk, OnOk, length};
ghost use Rattle.std.specs.List.{list_any, range_with_len};
ghost use Rattle.topic_conf.specs.Topics.{partitions};
ghost use Rattle.describe_calls.specs.Groups.{IsTellableTable, capped, group_entries, group_shape, held_told, is_there, lock_end, says_there, table_entry, table_row};

use crate::summary::GroupSummary;
use call_fold::Entry;
use flex_fields::Text;
use log_calls::NamedShape;
use msgs_admin::HeldRecords;
use share_model::{Code, Name, NoMemory, TableSummary};
use std::collections::VecDeque;
use topic_conf::Config;

/// The code of a group that isn't there.
pub const GROUP_ID_NOT_FOUND: Code = Code(69);

/// A shard is asked about a group: that of the members, who is in it, and that of a partition, how far it has come.
#[derive(Clone, Copy)]
pub enum GroupAsk {
    Members { group: Name },
    Table { shard: u32, group: Name },
}

/// How far a group has come with a partition, in the numbers of a reply.
#[derive(Clone, Copy)]
pub struct TableRow {
    pub start: i64,
    pub lag: i64,
    pub held: Option<HeldRecords>,
}

/// What a shard tells of a group.
#[derive(Drop)]
pub enum GroupRow {
    /// Its members. `None` where it has none.
    Members(Option<GroupSummary>),
    /// How far it has come. `None` where it has no table there.
    Table(Option<TableRow>),
}

// A number of a reply.
fn capped(number: u64) -> i64
    ensures { result ≡ pos (capped number) }
{
    number.min(i64::MAX as u64) as i64
}

fn lock_end(end: Option<u64>) -> i64
    ensures { result ≡ lock_end end }
{
    match end {
        Some(end) => capped(end),
        None => -1,
    }
}

fn held_told(summary: TableSummary) -> HeldRecords
    ensures { result ≡ held_told summary }
{
    HeldRecords {
        held: capped(summary.held),
        first_lock_end_ms: lock_end(summary.first_lock_end),
        archived: capped(summary.archived),
    }
}

/// The row that a partition's answer makes.
pub fn table_row(summary: TableSummary) -> TableRow
    requires { IsTellableTable summary }
    ensures { result ≡ table_row summary }
{
    TableRow {
        start: summary.start as i64,
        lag: summary.lag as i64,
        held: Some(held_told(summary)),
    }
}

/// How many shards the hosted partitions have, at most 64.
pub fn shards_of(conf: &Config) -> u32
    ensures count { result ≡ partitions conf.now.topics }
    ensures few { result ≤ 64 }
{
    let mut count = 0;
    let mut rest = conf.topics();
    while let Some((topic, others)) = rest.split_first() {
        count += topic.parts;
        rest = others;
    }
    count
}

// The tables of a group are asked for, shard by shard.
fn plan_tables(
    shards: u32,
    group: Name,
    left: &mut VecDeque<Entry<GroupAsk, GroupRow>>,
) -> Result<(), NoMemory>
    ensures { OnOk result (left.new.items ≡ left.old.items ++ map (table_entry group) (range_with_len 0 shards)) }
{
    for shard in 0..shards {
        left.push_back(Entry::Ask(GroupAsk::Table { shard, group }))?;
    }
    Ok(())
}

/// The questions about a group are put behind those that are left. It answers the group with their number.
pub fn plan_group(
    shards: u32,
    id: Text,
    left: &mut VecDeque<Entry<GroupAsk, GroupRow>>,
) -> Result<NamedShape, NoMemory>
    requires { shards ≤ 64 }
    ensures shape { IfOk result (λ shape. shape ≡ group_shape shards id) }
    ensures left { OnOk result (left.new.items ≡ left.old.items ++ group_entries shards id) }
{
    let Some(group) = Name::new(id.as_str()) else {
        return Ok(NamedShape { name: id, count: 0 });
    };
    left.push_back(Entry::Ask(GroupAsk::Members { group }))?;
    plan_tables(shards, group, left)?;
    Ok(NamedShape {
        name: id,
        count: shards + 1,
    })
}

// Whether a shard knows the group.
fn says_there(row: &GroupRow) -> bool
    ensures { result ≡ says_there row.now }
{
    match row {
        GroupRow::Members(members) => members.is_some(),
        GroupRow::Table(table) => table.is_some(),
    }
}

/// Whether a group is there of which the shards tell this.
pub fn is_there(rows: &[GroupRow]) -> bool
    ensures { result ≡ is_there rows.now }
{
    rows.iter().any(|row| says_there(row))
}
