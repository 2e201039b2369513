// The calls that tell how a queue is, over a topic `t` of 64 partitions whose id is 16 bytes 22. A line has the body of
// a request, `with`, and what shards tell; it gives the body of the reply.
//
// | Line | What shards tell |
// |---|---|
// | `list_offsets HEX with START..END ..` | the logs that are asked, in order |
// | `group_offsets HEX with WORD ..` | of groups: `GROUP:EPOCH:MEMBER` its member, `GROUP@SHARD:START,LAG,HELD,LOCK,ARCHIVED` a table |
// | `members HEX with WORD ..` | the same |
// | `groups HEX with WORD ..` | the names of groups, those with a table as `GROUP@SHARD` |
use crate::plain::{hex_text, word};
use crate::sessions::hosted;
use call_fold::Entry;
use describe_calls::{
    GroupAsk, GroupOffsetsPlan, GroupRow, GroupSummary, LogEnds, MemberSummary, OffsetAsk,
    OffsetsPlan, TableRow, group_offsets_body, offset_row, offsets_body, plan_group_offsets,
    plan_offsets, table_row,
};
use flex_fields::{Bytes, Items, NoMemory};
use group_calls::{
    GroupState, GroupsAsk, GroupsPlan, GroupsRow, MembersPlan, groups_body, members_body,
    plan_groups, plan_members,
};
use msgs_admin::{
    FoundOffset, read_describe_offsets_request, read_group_describe_request,
    read_list_groups_request, read_list_offsets_request,
};
use row_text::bytes_of;
use share_model::{Name, TableSummary};
use std::alloc::Global;
use std::collections::VecDeque;
use std::io;
use topic_conf::Config;

fn log_row(ask: OffsetAsk, word: Option<&str>) -> Option<FoundOffset> {
    let (start, end) = word?.split_once("..")?;
    let (start, end): (u32, u32) = (start.parse().ok()?, end.parse().ok()?);
    let ends = LogEnds {
        start: u64::from(start),
        end: u64::from(end),
    };
    Some(offset_row(ask, ends))
}

fn offsets(alloc: Global, conf: &Config, body: &[u8], words: &str) -> Result<Bytes, NoMemory> {
    let Ok(request) = read_list_offsets_request(alloc, body) else {
        return Err(NoMemory);
    };
    let OffsetsPlan { shape, left } = plan_offsets(alloc, conf, request)?;
    let mut rows = VecDeque::new(alloc);
    let mut words = words.split(' ');
    for entry in left {
        match entry {
            Entry::Known(row) => rows.push_back(row)?,
            Entry::Ask(ask) => {
                if let Some(row) = log_row(ask, words.next()) {
                    rows.push_back(row)?;
                }
            }
        }
    }
    offsets_body(alloc, shape, rows)
}

/// A word's text behind its colon, where it is of this group and of this shard.
fn text_of<'a>(word: &'a str, group: &Name, shard: Option<u32>) -> Option<&'a str> {
    let (place, text) = word.split_once(':')?;
    let (name, number) = place.split_once('@').unwrap_or((place, ""));
    if name == group.as_str() && number.parse().ok() == shard {
        return Some(text);
    }
    None
}

fn members_of(alloc: Global, text: &str) -> Result<Option<GroupSummary>, NoMemory> {
    let (epoch, id) = text.split_once(':').unwrap_or((text, ""));
    let (Ok(epoch), Some(id)) = (epoch.parse(), Name::new(id)) else {
        return Ok(None);
    };
    let member = MemberSummary {
        id,
        epoch,
        topics: Items::new(Vec::new(alloc)),
        assigned: Items::new(Vec::new(alloc)),
    };
    let mut members = Vec::with_capacity(alloc, 1)?;
    members.push(member)?;
    Ok(Some(GroupSummary {
        epoch,
        members: Items::new(members),
    }))
}

fn table_of(text: &str) -> Option<TableRow> {
    let (start, rest) = text.split_once(',')?;
    let (lag, rest) = rest.split_once(',')?;
    let (held, rest) = rest.split_once(',')?;
    let (lock, archived) = rest.split_once(',')?;
    let (start, lag): (u32, u32) = (start.parse().ok()?, lag.parse().ok()?);
    Some(table_row(TableSummary {
        start: u64::from(start),
        end: 9,
        lag: u64::from(lag),
        held: held.parse().ok()?,
        first_lock_end: lock.parse().ok(),
        acknowledged: 0,
        archived: archived.parse().ok()?,
    }))
}

fn group_row(alloc: Global, ask: GroupAsk, words: &str) -> Result<GroupRow, NoMemory> {
    let (group, shard) = match ask {
        GroupAsk::Members { group } => (group, None),
        GroupAsk::Table { shard, group } => (group, Some(shard)),
    };
    let mut found = None;
    for word in words.split(' ') {
        found = found.or(text_of(word, &group, shard));
    }
    match (shard, found) {
        (None, None) => Ok(GroupRow::Members(None)),
        (None, Some(text)) => Ok(GroupRow::Members(members_of(alloc, text)?)),
        (Some(_), None) => Ok(GroupRow::Table(None)),
        (Some(_), Some(text)) => Ok(GroupRow::Table(table_of(text))),
    }
}

fn group_rows(
    alloc: Global,
    left: VecDeque<Entry<GroupAsk, GroupRow>>,
    words: &str,
) -> Result<VecDeque<GroupRow>, NoMemory> {
    let mut rows = VecDeque::new(alloc);
    for entry in left {
        match entry {
            Entry::Known(row) => rows.push_back(row)?,
            Entry::Ask(ask) => rows.push_back(group_row(alloc, ask, words)?)?,
        }
    }
    Ok(rows)
}

fn tables(alloc: Global, conf: &Config, body: &[u8], words: &str) -> Result<Bytes, NoMemory> {
    let Ok(request) = read_describe_offsets_request(alloc, body) else {
        return Err(NoMemory);
    };
    let GroupOffsetsPlan { all, groups, left } = plan_group_offsets(alloc, conf, request)?;
    let rows = group_rows(alloc, left, words)?;
    group_offsets_body(alloc, &all, groups, rows)
}

fn members(alloc: Global, conf: &Config, body: &[u8], words: &str) -> Result<Bytes, NoMemory> {
    let Ok(request) = read_group_describe_request(alloc, body) else {
        return Err(NoMemory);
    };
    let MembersPlan { shape, left } = plan_members(alloc, conf, request)?;
    let rows = group_rows(alloc, left, words)?;
    members_body(alloc, shape, rows)
}

/// The groups that a shard tells, at most nine.
fn known(alloc: Global, ask: GroupsAsk, words: &str) -> Result<GroupsRow, NoMemory> {
    let (state, shard) = match ask {
        GroupsAsk::Members => (GroupState::Stable, None),
        GroupsAsk::Tables { shard } => (GroupState::Empty, Some(shard)),
    };
    let mut names = Vec::new(alloc);
    for word in words.split(' ') {
        let (name, number) = word.split_once('@').unwrap_or((word, ""));
        let told: Option<u32> = number.parse().ok();
        if let (true, Some(name)) = (told == shard && names.len() < 9, Name::new(name)) {
            names.push(name)?;
        }
    }
    if names.len() > 9 {
        return Err(NoMemory);
    }
    Ok(GroupsRow {
        state,
        names: Items::new(names),
    })
}

fn groups(alloc: Global, conf: &Config, body: &[u8], words: &str) -> Result<Bytes, NoMemory> {
    let Ok(request) = read_list_groups_request(alloc, body) else {
        return Err(NoMemory);
    };
    let GroupsPlan { wanted, left } = plan_groups(alloc, conf, &request)?;
    let mut rows = VecDeque::new(alloc);
    for entry in left {
        match entry {
            Entry::Known(row) => rows.push_back(row)?,
            Entry::Ask(ask) => rows.push_back(known(alloc, ask, words)?)?,
        }
    }
    groups_body(alloc, wanted, rows)
}

/// What a line gives. `None` where there is no such line.
pub fn queue_told(alloc: Global, kind: &str, text: &str) -> io::Result<Option<String>> {
    let (body, words) = text.split_once(" with").unwrap_or((text, ""));
    let (Some(conf), Some(body)) = (hosted(alloc)?, bytes_of(alloc, body)?) else {
        return Ok(None);
    };
    let words = words.strip_prefix(" ").unwrap_or(words);
    let reply = match kind {
        "list_offsets" => offsets(alloc, &conf, &body, words),
        "group_offsets" => tables(alloc, &conf, &body, words),
        "members" => members(alloc, &conf, &body, words),
        "groups" => groups(alloc, &conf, &body, words),
        _ => return Ok(None),
    };
    match reply {
        Ok(body) => Ok(Some(hex_text(alloc, body.as_slice())?)),
        Err(_) => Ok(Some(word(alloc, "no reply")?)),
    }
}
