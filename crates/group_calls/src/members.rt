// ShareGroupDescribe.
ghost use Rattle.std.specs.Prelude.{◌≡◌, ◌≤◌, ◌++◌, map, flat_map, take, drop, length, IfOk, OnOk};
ghost use Rattle.topic_conf.specs.Topics.{partitions};
ghost use Rattle.describe_calls.specs.Groups.{group_entries, group_shape};
ghost use Rattle.group_calls.specs.Members.{assigned_row, bare_group, described_group, groups_by_rows, member_row, members_reply, stable_group};

use call_fold::{Entry, next_rows};
use describe_calls::{
    AssignedPartitions, GROUP_ID_NOT_FOUND, GroupAsk, GroupRow, GroupSummary, MemberSummary,
    is_there, plan_group, shards_of,
};
use flex_fields::{Bytes, Items, Text};
use log_calls::NamedShape;
use msgs_admin::{
    DescribedGroup, GroupDescribeReply, GroupDescribeRequest, GroupMember, MemberAssignment,
    MemberTopic, write_group_describe_reply,
};
use share_model::{Code, Name, NoMemory};
use std::alloc::Global;
use std::collections::VecDeque;
use topic_conf::Config;

/// Authorized operations that aren't told.
const UNTOLD: i32 = -2147483648;

/// A plan of a ShareGroupDescribe: its groups, each with how many rows it has, and its entries.
#[derive(Drop)]
pub struct MembersPlan {
    pub shape: Items<NamedShape>,
    pub left: VecDeque<Entry<GroupAsk, GroupRow>>,
}

/// The plan of a ShareGroupDescribe.
pub fn plan_members(
    alloc: Global,
    conf: &Config,
    request: GroupDescribeRequest,
) -> Result<MembersPlan, NoMemory>
    ensures shape { IfOk result (λ plan. plan.shape ≡ map (group_shape (partitions conf.now.topics)) request.group_ids) }
    ensures left { IfOk result (λ plan. plan.left.items ≡ flat_map (group_entries (partitions conf.now.topics)) request.group_ids) }
{
    let GroupDescribeRequest { group_ids, .. } = request;
    let shards = shards_of(conf);
    let ids = group_ids.into_vec();
    let mut shape = Vec::with_capacity(alloc, ids.len())?;
    let mut left = VecDeque::new(alloc);
    for id in ids {
        let one = plan_group(shards, id, &mut left)?;
        shape.push(one)?;
    }
    Ok(MembersPlan {
        shape: Items::new(shape),
        left,
    })
}

// The texts of names.
fn texts(alloc: Global, names: &Items<Name>) -> Result<Items<Text>, NoMemory>
    ensures { IfOk result (λ texts. texts ≡ names.now) }
{
    let names = names.as_slice();
    let mut texts = Vec::with_capacity(alloc, names.len())?;
    for name in names {
        texts.push(Text::new(alloc, name.as_str())?)?;
    }
    Ok(Items::new(texts))
}

// What a reply tells of the partitions of one topic that a member reads.
fn assigned_row(alloc: Global, assigned: &AssignedPartitions) -> Result<MemberTopic, NoMemory>
    ensures { IfOk result (λ row. row ≡ assigned_row assigned.now) }
{
    let partitions = Vec::from_slice(alloc, assigned.partitions.as_slice())?;
    Ok(MemberTopic {
        topic_id: assigned.id,
        topic_name: Text::new(alloc, assigned.topic.as_str())?,
        partitions: Items::new(partitions),
    })
}

// What it tells of all that a member reads.
fn assigned_rows(
    alloc: Global,
    assigned: &Items<AssignedPartitions>,
) -> Result<Items<MemberTopic>, NoMemory>
    ensures { IfOk result (λ rows. rows ≡ map assigned_row assigned.now) }
{
    let assigned = assigned.as_slice();
    let mut rows = Vec::with_capacity(alloc, assigned.len())?;
    for one in assigned {
        rows.push(assigned_row(alloc, one)?)?;
    }
    Ok(Items::new(rows))
}

// What it tells of a member.
fn member_row(alloc: Global, member: &MemberSummary) -> Result<GroupMember, NoMemory>
    ensures { IfOk result (λ row. row ≡ member_row member.now) }
{
    Ok(GroupMember {
        member_id: Text::new(alloc, member.id.as_str())?,
        rack_id: None,
        member_epoch: member.epoch,
        client_id: Text::new(alloc, "")?,
        client_host: Text::new(alloc, "")?,
        subscribed_topic_names: texts(alloc, &member.topics)?,
        assignment: MemberAssignment {
            topic_partitions: assigned_rows(alloc, &member.assigned)?,
        },
    })
}

// What it tells of the members of a group.
fn member_rows(
    alloc: Global,
    members: &Items<MemberSummary>,
) -> Result<Items<GroupMember>, NoMemory>
    ensures { IfOk result (λ rows. rows ≡ map member_row members.now) }
{
    let members = members.as_slice();
    let mut rows = Vec::with_capacity(alloc, members.len())?;
    for one in members {
        rows.push(member_row(alloc, one)?)?;
    }
    Ok(Items::new(rows))
}

// What it tells of a group that has members.
fn stable_group(alloc: Global, id: Text, group: &GroupSummary) -> Result<DescribedGroup, NoMemory>
    ensures { IfOk result (λ told. told ≡ stable_group id group.now) }
{
    Ok(DescribedGroup {
        error_code: Code::NONE.0,
        error_message: None,
        group_id: id,
        group_state: Text::new(alloc, "Stable")?,
        group_epoch: group.epoch,
        assignment_epoch: group.epoch,
        assignor_name: Text::new(alloc, "")?,
        members: member_rows(alloc, &group.members)?,
        authorized_operations: UNTOLD,
    })
}

// What it tells of a group that has none, with its state and a code.
fn bare_group(alloc: Global, id: Text, state: &str, code: Code) -> Result<DescribedGroup, NoMemory>
    requires { length state.now ≤ 255 }
    ensures { IfOk result (λ told. told ≡ bare_group id state.now code) }
{
    Ok(DescribedGroup {
        error_code: code.0,
        error_message: None,
        group_id: id,
        group_state: Text::new(alloc, state)?,
        group_epoch: 0,
        assignment_epoch: 0,
        assignor_name: Text::new(alloc, "")?,
        members: Items::new(Vec::new(alloc)),
        authorized_operations: UNTOLD,
    })
}

// What it tells of the group with these rows.
fn described_group(alloc: Global, id: Text, rows: &[GroupRow]) -> Result<DescribedGroup, NoMemory>
    ensures { IfOk result (λ told. told ≡ described_group id rows.now) }
{
    if let Some(GroupRow::Members(members)) = rows.first() {
        if let Some(group) = members {
            return stable_group(alloc, id, group);
        }
    }
    if is_there(rows) {
        return bare_group(alloc, id, "Empty", Code::NONE);
    }
    bare_group(alloc, id, "Dead", GROUP_ID_NOT_FOUND)
}

// The next group takes its rows.
fn next_group(
    alloc: Global,
    shape: NamedShape,
    rows: &mut VecDeque<GroupRow>,
) -> Result<DescribedGroup, NoMemory>
    ensures told { IfOk result (λ told. told ≡ described_group shape.name (take shape.count rows.old.items)) }
    ensures left { OnOk result (rows.new.items ≡ drop shape.count rows.old.items) }
{
    let NamedShape { name, count } = shape;
    let own = next_rows(alloc, count, rows)?;
    described_group(alloc, name, own.as_slice())
}

// The groups, each by its own rows.
fn groups_by_rows(
    alloc: Global,
    shape: Items<NamedShape>,
    mut rows: VecDeque<GroupRow>,
) -> Result<Items<DescribedGroup>, NoMemory>
    ensures { IfOk result (λ groups. groups ≡ groups_by_rows shape rows.items) }
{
    let shape = shape.into_vec();
    let mut groups = Vec::with_capacity(alloc, shape.len())?;
    for one in shape {
        let group = next_group(alloc, one, &mut rows)?;
        groups.push(group)?;
    }
    Ok(Items::new(groups))
}

/// The body of the reply with these rows, one for each entry of the plan.
pub fn members_body(
    alloc: Global,
    shape: Items<NamedShape>,
    rows: VecDeque<GroupRow>,
) -> Result<Bytes, NoMemory>
    ensures { IfOk result (λ body. body ≡ members_reply (groups_by_rows shape rows.items)) }
{
    let reply = GroupDescribeReply {
        throttle_time_ms: 0,
        groups: groups_by_rows(alloc, shape, rows)?,
    };
    write_group_describe_reply(alloc, &reply)
}
