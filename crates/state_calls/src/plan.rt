// The entries of a state call.
ghost use Rattle.std.specs.Prelude.{◌≡◌, ◌≤ℤ◌, ◌++◌, pos, map, flat_map, IfOk, OnOk};
ghost use Rattle.share_model.specs.ForeignRules.{code_alone};
ghost use Rattle.topic_conf.specs.Topics.{shard_at};
ghost use Rattle.state_calls.specs.States.{is_hosted, fate, partition_entry, topic_entries, shape_of};

use crate::hosting::Hosting;
use crate::place::{Place, Shape};
use crate::state::StateCall;
use call_fold::Entry;
use flex_fields::Items;
use msgs_state::StateTopic;
use share_model::{Code, ForeignAnswer, NoMemory};
use std::alloc::Global;
use std::collections::VecDeque;
use topic_conf::Config;
use uuid::Uuid;

/// What is asked of a place.
#[derive(Drop)]
pub struct Wished<W> {
    pub place: Place,
    pub wish: W,
}

/// A question of a state call.
#[derive(Drop)]
pub enum Question<W> {
    /// It is of the foreign shard.
    Foreign(Wished<W>),
    /// What is stored of the group at a hosted partition, by its number in the topic and that of its shard.
    Hosted { partition: i32, shard: u32 },
}

/// What becomes of a partition of a request.
#[derive(Clone, Copy)]
pub enum Fate {
    /// It is refused at once.
    Refused(Code),
    /// The shard of this number is looked at.
    LookedAt(u32),
    /// The foreign shard is asked.
    AskedAbroad,
}

/// A plan of a state call: the form of its reply, and its entries.
#[derive(Drop)]
pub struct Plan<W, R> {
    pub shape: Items<Shape>,
    pub left: VecDeque<Entry<Question<W>, R>>,
}

/// An answer that tells nothing but its code.
pub fn code_alone(alloc: Global, code: Code) -> ForeignAnswer
    ensures { result ≡ code_alone code }
{
    ForeignAnswer {
        code,
        state_epoch: 0,
        start: -1,
        runs: Items::new(Vec::new(alloc)),
    }
}

// What becomes of a partition of a topic that is hosted or isn't.
fn fate_at(
    conf: &Config,
    fits: bool,
    hosted: bool,
    hosting: Hosting,
    topic: Uuid,
    partition: i32,
) -> Fate
    ensures fate { result ≡ fate fits hosted hosting (shard_at topic partition conf.now.topics) partition }
    ensures abroad { result ≡ Fate.AskedAbroad → pos 0 ≤ℤ partition }
{
    if !fits {
        return Fate::Refused(Code::INVALID_GROUP_ID);
    }
    if partition < 0 {
        return Fate::Refused(Code::INVALID_REQUEST);
    }
    if !hosted {
        return Fate::AskedAbroad;
    }
    match hosting {
        Hosting::Refuses(code) => Fate::Refused(code),
        Hosting::Looks => match conf.find(topic, partition) {
            Some(shard) => Fate::LookedAt(shard),
            None => Fate::Refused(Code::UNKNOWN_TOPIC_OR_PARTITION),
        },
    }
}

fn plan_partition<S: StateCall>(
    alloc: Global,
    conf: &Config,
    fits: bool,
    hosted: bool,
    topic: Uuid,
    partition: S::Partition,
) -> Result<Entry<Question<S::Wish>, S::Row>, NoMemory>
    requires { hosted ≡ is_hosted conf.now.topics topic }
    ensures { IfOk result (λ entry. entry ≡ partition_entry S.means conf.now.topics fits topic partition) }
{
    let (partition, wish) = S::wish(partition);
    match fate_at(conf, fits, hosted, S::hosted(), topic, partition) {
        Fate::Refused(code) => {
            let row = S::row(alloc, partition, code_alone(alloc, code))?;
            Ok(Entry::Known(row))
        }
        Fate::LookedAt(shard) => Ok(Entry::Ask(Question::Hosted { partition, shard })),
        Fate::AskedAbroad => {
            let place = Place {
                topic,
                part: partition as u32,
            };
            Ok(Entry::Ask(Question::Foreign(Wished { place, wish })))
        }
    }
}

fn plan_partitions<S: StateCall>(
    alloc: Global,
    conf: &Config,
    fits: bool,
    topic: Uuid,
    partitions: Vec<S::Partition>,
    left: &mut VecDeque<Entry<Question<S::Wish>, S::Row>>,
) -> Result<(), NoMemory>
    ensures { OnOk result (left.new.items ≡ left.old.items ++ map (partition_entry S.means conf.now.topics fits topic) partitions.items) }
{
    let hosted = conf.by_id(topic).is_some();
    for partition in partitions {
        let entry = plan_partition::<S>(alloc, conf, fits, hosted, topic, partition)?;
        left.push_back(entry)?;
    }
    Ok(())
}

// The entries of one topic are put behind those that are left.
fn plan_topic<S: StateCall>(
    alloc: Global,
    conf: &Config,
    fits: bool,
    topic: StateTopic<S::Partition>,
    left: &mut VecDeque<Entry<Question<S::Wish>, S::Row>>,
) -> Result<Shape, NoMemory>
    ensures shape { IfOk result (λ shape. shape ≡ shape_of topic) }
    ensures left { OnOk result (left.new.items ≡ left.old.items ++ topic_entries S.means conf.now.topics fits topic) }
{
    let StateTopic {
        topic_id,
        partitions,
    } = topic;
    let partitions = partitions.into_vec();
    let count = partitions.len() as u32;
    plan_partitions::<S>(alloc, conf, fits, topic_id, partitions, left)?;
    Ok(Shape {
        topic: topic_id,
        count,
    })
}

/// The entries of the topics; where the group does not fit, each is refused.
pub fn plan_topics<S: StateCall>(
    alloc: Global,
    conf: &Config,
    fits: bool,
    topics: Items<StateTopic<S::Partition>>,
) -> Result<Plan<S::Wish, S::Row>, NoMemory>
    ensures shape { IfOk result (λ plan. plan.shape ≡ map shape_of topics) }
    ensures left { IfOk result (λ plan. plan.left.items ≡ flat_map (topic_entries S.means conf.now.topics fits) topics) }
{
    let topics = topics.into_vec();
    let mut shape = Vec::with_capacity(alloc, topics.len())?;
    let mut left = VecDeque::new(alloc);
    for topic in topics {
        let one = plan_topic::<S>(alloc, conf, fits, topic, &mut left)?;
        shape.push(one)?;
    }
    Ok(Plan {
        shape: Items::new(shape),
        left,
    })
}
