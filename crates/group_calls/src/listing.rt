// ListGroups.
ghost use Rattle.std.specs.Prelude.{◌≡◌, ◌≤◌, ◌++◌, map, [], IfOk, OnOk};
ghost use Rattle.std.specs.List.{range_with_len};
ghost use Rattle.std.specs.Str.{str_eq_ignore_ascii_case};
ghost use Rattle.topic_conf.specs.Topics.{partitions};
ghost use Rattle.group_calls.specs.Listing.{groups_entries, groups_reply, has_word, listed_group, listed_groups, passes, state_text, tables_entry, wanted_of, wants, with_names, with_rows};

use call_fold::Entry;
use describe_calls::shards_of;
use flex_fields::{Bytes, Items, Text};
use msgs_admin::{ListGroupsReply, ListGroupsRequest, ListedGroup, write_list_groups_reply};
use share_model::{Code, Name, NoMemory};
use std::alloc::Global;
use std::collections::{BTreeMap, VecDeque};
use topic_conf::Config;

/// How many groups a reply can list.
const MOST_GROUPS: usize = 4294967293;

/// A shard is asked which groups it knows: that of a partition, and that of the members.
#[derive(Clone, Copy)]
pub enum GroupsAsk {
    Tables { shard: u32 },
    Members,
}

/// The state of a group that is there: without members, or with some.
#[derive(Clone, Copy)]
pub enum GroupState {
    Empty,
    Stable,
}

/// The groups that a shard knows: those that have a table there, or those that have members.
#[derive(Drop)]
pub struct GroupsRow {
    pub state: GroupState,
    pub names: Items<Name>,
}

/// Which states are asked for.
#[derive(Clone, Copy)]
pub struct Wanted {
    pub empty: bool,
    pub stable: bool,
}

/// A plan of a ListGroups: which groups are wanted, and its entries.
#[derive(Drop)]
pub struct GroupsPlan {
    pub wanted: Wanted,
    pub left: VecDeque<Entry<GroupsAsk, GroupsRow>>,
}

// Whether a text is the word, whatever the case of its letters.
fn is_word(text: &str, word: &str) -> bool
    ensures { result ≡ str_eq_ignore_ascii_case text.now word.now }
{
    text.eq_ignore_ascii_case(word)
}

fn has_word(filter: &[Text], word: &str) -> bool
    ensures { result ≡ has_word filter.now word.now }
{
    filter.iter().any(|one| is_word(one.as_str(), word))
}

// Whether a filter has the word. One without texts has each.
fn passes(filter: &[Text], word: &str) -> bool
    ensures { result ≡ passes filter.now word.now }
{
    filter.is_empty() || has_word(filter, word)
}

fn state_text(state: GroupState) -> &'static str
    ensures { result.now ≡ state_text state }
{
    match state {
        GroupState::Empty => "Empty",
        GroupState::Stable => "Stable",
    }
}

fn wanted_of(request: &ListGroupsRequest) -> Wanted
    ensures { result ≡ wanted_of request.now }
{
    let states = request.states_filter.as_slice();
    let share = passes(request.types_filter.as_slice(), "share");
    Wanted {
        empty: share && passes(states, "Empty"),
        stable: share && passes(states, "Stable"),
    }
}

fn wants(wanted: Wanted, state: GroupState) -> bool
    ensures { result ≡ wants wanted state }
{
    match state {
        GroupState::Empty => wanted.empty,
        GroupState::Stable => wanted.stable,
    }
}

/// The plan of a ListGroups: the tables of each shard, and then the members.
pub fn plan_groups(
    alloc: Global,
    conf: &Config,
    request: &ListGroupsRequest,
) -> Result<GroupsPlan, NoMemory>
    ensures wanted { IfOk result (λ plan. plan.wanted ≡ wanted_of request.now) }
    ensures left { IfOk result (λ plan. plan.left.items ≡ groups_entries (partitions conf.now.topics)) }
{
    let mut left = VecDeque::new(alloc);
    for shard in 0..shards_of(conf) {
        left.push_back(Entry::Ask(GroupsAsk::Tables { shard }))?;
    }
    left.push_back(Entry::Ask(GroupsAsk::Members))?;
    let wanted = wanted_of(request);
    Ok(GroupsPlan { wanted, left })
}

// The groups of one row are known.
fn with_names(row: GroupsRow, groups: &mut BTreeMap<Name, GroupState>) -> Result<(), NoMemory>
    ensures { OnOk result (groups.new.entries ≡ with_names row.state row.names groups.old.entries) }
{
    let GroupsRow { state, names } = row;
    for name in names.into_vec() {
        if groups.insert(name, state).is_err() {
            return Err(NoMemory);
        }
    }
    Ok(())
}

// All that rows tell, later rows over earlier ones.
fn with_rows(
    alloc: Global,
    mut rows: VecDeque<GroupsRow>,
) -> Result<BTreeMap<Name, GroupState>, NoMemory>
    ensures { IfOk result (λ groups. groups.entries ≡ with_rows rows.items []) }
{
    let mut groups = BTreeMap::new(alloc);
    while let Some(row) = rows.pop_front() {
        with_names(row, &mut groups)?;
    }
    Ok(groups)
}

fn listed_group(alloc: Global, name: &Name, state: GroupState) -> Result<ListedGroup, NoMemory>
    ensures { IfOk result (λ group. group ≡ listed_group name.now state) }
{
    Ok(ListedGroup {
        group_id: Text::new(alloc, name.as_str())?,
        protocol_type: Text::new(alloc, "share")?,
        group_state: Text::new(alloc, state_text(state))?,
        group_type: Text::new(alloc, "share")?,
    })
}

// Those that are wanted.
fn listed_groups(
    alloc: Global,
    wanted: Wanted,
    groups: &BTreeMap<Name, GroupState>,
) -> Result<Items<ListedGroup>, NoMemory>
    ensures { IfOk result (λ list. list ≡ listed_groups wanted groups.now.entries) }
{
    let mut list = Vec::with_capacity(alloc, groups.len())?;
    for (name, state) in groups.iter() {
        if wants(wanted, *state) {
            list.push(listed_group(alloc, name, *state)?)?;
        }
    }
    if list.len() > MOST_GROUPS {
        return Err(NoMemory);
    }
    Ok(Items::new(list))
}

/// The body of the reply with these rows, one for each entry of the plan. More groups than an array can have are want
/// of memory.
pub fn groups_body(
    alloc: Global,
    wanted: Wanted,
    rows: VecDeque<GroupsRow>,
) -> Result<Bytes, NoMemory>
    ensures { IfOk result (λ body. body ≡ groups_reply wanted rows.items) }
{
    let groups = with_rows(alloc, rows)?;
    let reply = ListGroupsReply {
        throttle_time_ms: 0,
        error_code: Code::NONE.0,
        groups: listed_groups(alloc, wanted, &groups)?,
    };
    write_list_groups_reply(alloc, &reply)
}
