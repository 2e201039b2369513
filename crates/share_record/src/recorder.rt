ghost use Rattle.std.specs.Prelude.{◌≡◌, []};
ghost use Rattle.share_record.specs.declared.tape.TapeState.TheVariants.{Whole};
ghost use Rattle.share_record.specs.Tapes.{Notes, NotesTag};

use crate::tag::{Tag, Tagged};
use crate::tape::{TagList, TapeState};
use shard_lock::Shard;
use std::alloc::Global;
use std::marker::Model;

/// A shard, and the tape of what it is asked: so many tags at most. Without a number it keeps no tape.
#[derive(Drop)]
pub struct Recorder<S: Shard> {
    shard: S,
    tags: TagList,
    most: Option<u32>,
    state: TapeState,
}

impl<S: Shard> Model for Recorder<S> {
    ghost use Rattle.share_record.specs.Tapes.{Recorded};

    ghost Value = { Recorded S };

    ghost view = { λ r. record { shard = r.shard; tags = r.tags; most = r.most; state = r.state } };
}

// Puts a tag on a whole tape.
fn note_whole(tags: &mut TagList, most: u32, tag: &Tag) -> TapeState
    ensures { NotesTag most tag.now tags.old tags.new result }
{
    if tags.as_slice().len() >= most as usize {
        return TapeState::Full;
    }
    match tags.push(tag.another()) {
        Ok(()) => TapeState::Whole,
        Err(_) => TapeState::NoMemory,
    }
}

// Puts a tag on a tape.
fn note(tags: &mut TagList, most: Option<u32>, state: TapeState, tag: &Tag) -> TapeState
    ensures { Notes most tag.now tags.old state tags.new result }
{
    let Some(most) = most else {
        return state;
    };
    match (state, tag) {
        (TapeState::Whole, Tag::Offer) => state,
        (TapeState::Whole, _) => note_whole(tags, most, tag),
        (_, _) => state,
    }
}

impl<S: Shard> Recorder<S> {
    /// It takes no memory.
    pub fn new(alloc: Global, shard: S, tags: Option<u32>) -> Recorder<S>
        ensures { result ≡ record { shard = shard; tags = []; most = tags; state = Whole } }
    {
        Recorder {
            shard,
            tags: TagList::new(alloc),
            most: tags,
            state: TapeState::Whole,
        }
    }

    /// Whether the tape has the tag of each event.
    pub fn state(&self) -> TapeState
        ensures { result ≡ self.now.state }
    {
        self.state
    }

    /// The shard, and its tape. It takes no memory.
    pub fn into_parts(self) -> (S, TapeState, TagList)
        ensures shard { result.0 ≡ self.shard }
        ensures tape { (result.1 ≡ self.state) × (result.2 ≡ self.tags) }
    {
        let Recorder {
            shard,
            tags,
            state,
            ..
        } = self;
        (shard, state, tags)
    }
}

impl<S: Shard> Shard for Recorder<S> {
    type Event = Tagged<S::Event>;

    type Answer = S::Answer;

    ghost use Rattle.share_record.specs.Tapes.{ActsRecorded};

    ghost acts = { ActsRecorded S.acts };

    fn act(&mut self, event: &Tagged<S::Event>) -> S::Answer {
        let answer = self.shard.act(&event.event);
        self.state = note(&mut self.tags, self.most, self.state, &event.tag);
        answer
    }
}
