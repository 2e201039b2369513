//! One act of a seat: as the leader, or by another seat that leads.
ghost use Rattle.std.specs.Prelude.{◌≡◌, ◌+◌, ◌<◌, ◌∷◌, [], IfOk, IfErr};
ghost use Rattle.turn_lock.specs.declared.board.Cell.TheVariants.{Told};
ghost use Rattle.turn_lock.specs.declared.board.Role.TheVariants.{Opens};
ghost use Rattle.turn_lock.specs.Rule.{Acts, IsIdle};
ghost use Rattle.turn_lock.specs.Turns.{IsTurn};
ghost use Rattle.shard_lock.specs.History.{entry};

use crate::bell::{Bell, Bells};
use crate::board::{ANSWERED, ASKED, Cell, FREE, Place, Top};
use crate::leading::lead_all;
use crate::shard::Shard;
use crate::steps::{ask, lead, open, see, shut, withdraw};
use crossbeam_utils::Backoff;
use std::alloc::Global;
use std::marker::Brand;
use std::sync::Wait;

// Passes some time: by spinning and yielding at first, and then asleep until the bell rings. It answers how often the
// bell rang.
fn listen<R: Wait>(rt: &R, bell: &Bell, backoff: &Backoff, heard: Option<u64>) -> Option<u64> {
    match heard {
        Some(heard) => Some(bell.sleep_past(rt, heard)),
        None if backoff.is_completed() => Some(bell.rings(rt)),
        None => {
            backoff.snooze();
            None
        }
    }
}

// Asks, and waits until this seat was answered; or gives the event back, which no seat took, once no seat leads. It
// spins and yields for a while, and then sleeps from one ring of its bell to the next; as it notes how often that rang
// before it looks, no ring between the look and its sleep is missed. A seat that leads rings for each that it answered,
// and, once it leads no more, for one that asks then.
fn ask_others<S: Shard, R: Wait>(
    rt: &R,
    top: &Top<S, S::Event, S::Answer>,
    bell: &Bell,
    place: &mut Place<S, S::Event, S::Answer>,
    word: usize,
    event: S::Event,
) -> Result<S::Answer, S::Event>
    requires table { (place.old.table_id ≡ top.now.table_id) × (word < top.now.table_id.words) }
    requires word { word ≡ 1 + place.old.me.0.number }
    requires idle { IsIdle place.old.me × (0 < place.old.me.0.stands) }
    ensures same { (place.new.table_id ≡ place.old.table_id) × (place.new.id ≡ place.old.id) }
    ensures ok { IfOk result (λ answer. Acts (IsTurn S.acts S.together) place.old.me
        (entry place.old.me.0.number event answer) place.new.me) }
    ensures err { IfErr result (λ again. (again ≡ event) × (place.new.me ≡ place.old.me)) }
{
    open::<S>(top, place, word);
    top.exchange(place, word, Cell::Ask(event)).expect_empty();
    ask::<S, Brand>(top, place, word);
    let backoff = Backoff::new();
    let mut heard = None;
    for _ in rt.forever() {
        if see::<S>(top, place, word) == ANSWERED {
            let cell = top.exchange(place, word, Cell::Empty);
            shut::<S>(top, place, word);
            let Cell::Told(answer) = cell else {
                unreachable!()
            };
            return Ok(answer);
        }
        if top.peek(0) == FREE && withdraw::<S>(top, place, word) == ASKED {
            let cell = top.exchange(place, word, Cell::Empty);
            shut::<S>(top, place, word);
            let Cell::Ask(event) = cell else {
                unreachable!()
            };
            return Err(event);
        }
        heard = listen(rt, bell, &backoff, heard);
    }
    unreachable!()
}

/// One act of a seat that is at nothing: alone, with others, or by another seat.
pub fn act_on<S: Shard, R: Wait>(
    rt: &R,
    alloc: Global,
    top: &Top<S, S::Event, S::Answer>,
    bells: &Bells,
    place: &mut Place<S, S::Event, S::Answer>,
    words: usize,
    number: u64,
    event: S::Event,
) -> S::Answer
    requires table { (place.old.table_id ≡ top.now.table_id) × (top.now.table_id.words ≡ words) × (1 + number < words) }
    requires number { number ≡ place.old.me.0.number }
    requires idle { IsIdle place.old.me × (0 < place.old.me.0.stands) }
    ensures same { (place.new.table_id ≡ place.old.table_id) × (place.new.id ≡ place.old.id) }
    ensures acts { Acts (IsTurn S.acts S.together) place.old.me (entry number event result) place.new.me }
{
    let word = number as usize + 1;
    let mut event = event;
    for _ in rt.forever() {
        if lead::<S>(top, place) == FREE {
            return lead_all::<S, R>(rt, alloc, top, bells, place, words, number, event);
        }
        match ask_others::<S, R>(rt, top, bells.for_word(word), place, word, event) {
            Ok(answer) => return answer,
            Err(again) => event = again,
        }
    }
    unreachable!()
}
