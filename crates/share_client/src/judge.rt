// Whether a reply to ShareFetch can be what it says.
ghost use Rattle.std.specs.Prelude.{◌∷◌, [], flat_map, IfOk, IfErr};
ghost use Rattle.share_client.specs.Grants.{IsFetched, content_of, entries_of, place_of};
ghost use Rattle.share_client.specs.Spans.{AreSpans, Fetches, IsBrokenAt, IsToldAt, Notes};

use crate::batches::{Span, spans};
use crate::covers::grants;
use crate::fault::{ClientFault, strange};
use crate::fetched::LocatedPartition;
use crate::located::Located;
use msgs_share::{Records, ShareTopic};
use share_model::NoMemory;
use std::alloc::Global;
use std::collections::BTreeSet;
use uuid::Uuid;

/// The partitions that were seen in a reply, and how many offsets it may still grant.
#[derive(Drop)]
pub struct Tally {
    pub names: BTreeSet<(Uuid, i32)>,
    pub left: u32,
}

// Notes a partition: whether it is new.
#[tactic(auto, using(crate::proofs::Judging::notes_new, crate::proofs::Judging::stands_already))]
fn note(names: &mut BTreeSet<(Uuid, i32)>, name: (Uuid, i32)) -> Result<bool, NoMemory>
    ensures { Notes names.old name result names.new }
{
    match names.insert(name) {
        Ok(added) => Ok(added),
        Err(_) => Err(NoMemory),
    }
}

// The offsets of a partition's batches.
fn spans_of(alloc: Global, records: &Option<Located<Records>>) -> Result<Vec<Span>, ClientFault>
    ensures ok { IfOk result (λ spans. AreSpans (content_of records.now) spans.items) }
    ensures err { IfErr result (IsBrokenAt (place_of records.now) (content_of records.now)) }
{
    match records {
        None => Ok(Vec::new(alloc)),
        Some(records) => spans(alloc, records.place, records.item.as_slice()),
    }
}

// How many offsets are left behind what a partition grants.
#[tactic(auto, using(crate::proofs::Judging::fetched_told, crate::proofs::Judging::broken_told, crate::proofs::Walking::stored_ascend))]
fn fetched(alloc: Global, partition: &LocatedPartition, left: u32) -> Result<u32, ClientFault>
    ensures { IsToldAt (IsFetched left partition.now) result }
{
    let spans = match spans_of(alloc, &partition.records) {
        Ok(spans) => spans,
        Err(fault) => return Err(fault),
    };
    grants(partition.acquired_records.as_slice(), &spans, left)
}

// Looks at a partition's entry.
#[tactic(auto, using(crate::proofs::Judging::entry_passed, crate::proofs::Judging::entry_twice, crate::proofs::Judging::entry_fails, crate::proofs::Judging::entry_done))]
fn judge_entry(
    alloc: Global,
    tally: &mut Tally,
    topic: Uuid,
    located: &Located<LocatedPartition>,
) -> Result<(), ClientFault>
    ensures { Fetches ((topic, located.now) ∷ []) tally.old result tally.new }
{
    let partition = &located.item;
    if partition.error_code != 0 {
        return Ok(());
    }
    match note(&mut tally.names, (topic, partition.partition_index)) {
        Ok(true) => {}
        Ok(false) => return Err(strange(located.place)),
        Err(NoMemory) => return Err(ClientFault::NoMemory),
    }
    match fetched(alloc, partition, tally.left) {
        Ok(left) => {
            tally.left = left;
            Ok(())
        }
        Err(fault) => Err(fault),
    }
}

// Looks at the partitions of a topic.
#[tactic(auto, using(crate::proofs::Judging::goes_from, crate::proofs::Judging::goes_on, crate::proofs::Judging::goes_wrong, crate::proofs::Judging::goes_all))]
fn judge_topic(
    alloc: Global,
    tally: &mut Tally,
    topic: &ShareTopic<Located<LocatedPartition>>,
) -> Result<(), ClientFault>
    ensures { Fetches (entries_of topic.now) tally.old result tally.new }
{
    let mut rest = topic.partitions.as_slice();
    while let Some((located, others)) = rest.split_first() {
        match judge_entry(alloc, tally, topic.topic_id, located) {
            Ok(()) => {}
            Err(fault) => return Err(fault),
        }
        rest = others;
    }
    Ok(())
}

// Looks at the topics of a reply.
#[tactic(auto, using(crate::proofs::Judging::goes_from, crate::proofs::Judging::goes_on, crate::proofs::Judging::goes_wrong, crate::proofs::Judging::goes_all))]
pub fn judge_topics(
    alloc: Global,
    tally: &mut Tally,
    topics: &[ShareTopic<Located<LocatedPartition>>],
) -> Result<(), ClientFault>
    ensures { Fetches (flat_map entries_of topics.now) tally.old result tally.new }
{
    let mut rest = topics;
    while let Some((topic, others)) = rest.split_first() {
        match judge_topic(alloc, tally, topic) {
            Ok(()) => {}
            Err(fault) => return Err(fault),
        }
        rest = others;
    }
    Ok(())
}
