//! The turn of the seat that leads: it takes what others asked, does it with an event of its own, and answers each.
ghost use Rattle.std.specs.Prelude.{◌≡◌, ℕ, ◌+◌, ◌<◌, ◌≤◌, ◌∷◌, ◌++◌, [], length, vec_capacity, IfSome, IfNone, Some};
ghost use Rattle.turn_lock.specs.declared.board.Cell.TheVariants.{Home};
ghost use Rattle.turn_lock.specs.declared.board.Role.TheVariants.{Leads};
ghost use Rattle.turn_lock.specs.Asking.{AreBelow, entries};
ghost use Rattle.turn_lock.specs.Rule.{Acts, Extends, GrabsOne, HasBoxes, HasLeft, IsLeading};
ghost use Rattle.turn_lock.specs.Rule.{boxes, inner, rests, with_role};
ghost use Rattle.turn_lock.specs.Turns.{IsTurn};
ghost use Rattle.shard_lock.specs.History.{entry};

use crate::bell::Bells;
use crate::board::{ASKED, Cell, Place, Told, Top};
use crate::shard::Shard;
use crate::steps::{enter, grab, tell};
use std::alloc::Global;
use std::marker::Brand;
use std::sync::Wait;

// The word of a box that asks, if there is one.
pub fn asking<S: Shard>(top: &Top<S, S::Event, S::Answer>, words: usize) -> Option<usize>
    requires table { top.now.table_id.words ≡ words }
{
    for word in 1..words {
        if top.peek(word) == ASKED {
            return Some(word);
        }
    }
    None
}

// Takes the box of a seat, if that has asked.
fn grab_one<S: Shard>(
    top: &Top<S, S::Event, S::Answer>,
    place: &mut Place<S, S::Event, S::Answer>,
    word: usize,
) -> Option<S::Event>
    requires table { (place.old.table_id ≡ top.now.table_id) × (word < top.now.table_id.words) × (0 < word) }
    requires leads { IsLeading place.old.me }
    ensures same { (place.new.table_id ≡ place.old.table_id) × (place.new.id ≡ place.old.id) }
    ensures some { IfSome result (λ event. GrabsOne word place.old.me event place.new.me) }
    ensures none { IfNone result (place.new.me ≡ place.old.me) }
{
    if grab::<S>(top, place, word) == ASKED {
        let cell = top.exchange(place, word, Cell::Empty);
        place.turn();
        let Cell::Ask(event) = cell else {
            unreachable!()
        };
        return Some(event);
    }
    None
}

// Takes the box of one more seat, if that has asked and fewer than `most` were taken.
fn grab_next<S: Shard>(
    top: &Top<S, S::Event, S::Answer>,
    place: &mut Place<S, S::Event, S::Answer>,
    word: usize,
    most: usize,
    asks: &mut Vec<(u64, S::Event)>,
)
    requires table { (place.old.table_id ≡ top.now.table_id) × (word < top.now.table_id.words) × (0 < word) }
    requires leads { IsLeading place.old.me }
    requires room { (most ≤ vec_capacity asks.old) × (length asks.old.items ≤ most) }
    ensures same { (place.new.table_id ≡ place.old.table_id) × (place.new.id ≡ place.old.id) }
    ensures boxes { (old : _) → HasBoxes old place.old.me asks.old.items → HasBoxes old place.new.me asks.new.items }
    ensures below { (n : ℕ) → word < 1 + n → AreBelow n asks.old.items → AreBelow n asks.new.items }
    ensures leads { IsLeading place.new.me }
    ensures room { (vec_capacity asks.new ≡ vec_capacity asks.old) × (length asks.new.items ≤ most) }
{
    if asks.len() >= most || top.peek(word) != ASKED {
        return;
    }
    match grab_one::<S>(top, place, word) {
        Some(event) => asks.push_reserved(((word - 1) as u64, event)),
        None => {}
    }
}

// Takes the boxes of the seats that asked.
fn grab_all<S: Shard>(
    top: &Top<S, S::Event, S::Answer>,
    place: &mut Place<S, S::Event, S::Answer>,
    words: usize,
    most: usize,
    asks: &mut Vec<(u64, S::Event)>,
)
    requires table { (place.old.table_id ≡ top.now.table_id) × (top.now.table_id.words ≡ words) }
    requires leads { HasBoxes place.old.me place.old.me asks.old.items × (asks.old.items ≡ []) }
    requires room { most ≤ vec_capacity asks.old }
    ensures same { (place.new.table_id ≡ place.old.table_id) × (place.new.id ≡ place.old.id) }
    ensures boxes { HasBoxes place.old.me place.new.me asks.new.items }
    ensures below { (n : ℕ) → words ≡ 1 + n → AreBelow n asks.new.items }
    ensures room { (vec_capacity asks.new ≡ vec_capacity asks.old) × (length asks.new.items ≤ most) }
{
    for word in 1..words {
        grab_next::<S>(top, place, word, most, asks);
    }
}

// Enters a turn of one seat: what it did for others, and its own act behind them.
fn enter_turn<S: Shard, T: Told<S::Event, S::Answer>>(
    top: &Top<S, S::Event, S::Answer>,
    place: &mut Place<S, S::Event, S::Answer>,
    asks: &Vec<(u64, S::Event)>,
    answers: &Vec<S::Answer>,
    number: u64,
    done: &(S::Event, S::Answer),
)
    requires table { (place.old.table_id ≡ top.now.table_id) × (0 < top.now.table_id.words) }
    requires said { T.entries ≡ Some (entries asks.now.items answers.now.items, entry number done.now.0 done.now.1) }
    requires count { length answers.now.items ≡ length asks.now.items }
    requires number { number ≡ place.old.me.0.number }
    requires can { (t : _) × (y : _)
        × (place.old.me ≡ (with_role (Leads t asks.now.items) place.old.me.0, (0, Home y) ∷ boxes asks.now.items))
        × IsTurn S.acts S.together (inner t)
        (entries asks.now.items answers.now.items ++ entry number done.now.0 done.now.1 ∷ []) (inner y) }
    ensures same { (place.new.table_id ≡ place.old.table_id) × (place.new.id ≡ place.old.id) }
    ensures left { HasLeft place.new.me place.new.me (entries asks.now.items answers.now.items) }
    ensures extends { Extends (IsTurn S.acts S.together) place.old.me.0 (entry number done.now.0 done.now.1)
        (rests (entries asks.now.items answers.now.items)) place.new.me.0 }
{
    enter::<S, T>(top, place);
}

// One turn on the shard: what others asked, and an event of this seat behind it. The event comes back with its answer.
fn turn_on<S: Shard>(
    shard: &mut S,
    asks: &mut Vec<(u64, S::Event)>,
    answers: &mut Vec<S::Answer>,
    number: u64,
    event: S::Event,
) -> (S::Event, S::Answer)
    requires none { answers.old.items ≡ [] }
    requires room { 0 < length asks.old.items → length asks.old.items < vec_capacity asks.old }
    requires alike { vec_capacity asks.old ≡ vec_capacity answers.old }
    ensures asks { asks.new.items ≡ asks.old.items }
    ensures count { length answers.new.items ≡ length asks.old.items }
    ensures event { result.0 ≡ event }
    ensures turn { IsTurn S.acts S.together shard.old
        (entries asks.old.items answers.new.items ++ entry number event result.1 ∷ []) shard.new }
{
    if asks.is_empty() {
        let answer = shard.act(&event);
        return (event, answer);
    }
    asks.push_reserved((number, event));
    shard.act_all(asks, answers);
    let Some((_, event)) = asks.pop() else {
        unreachable!()
    };
    let Some(answer) = answers.pop() else {
        unreachable!()
    };
    (event, answer)
}

// Does what was asked and an event of this seat in one turn, and enters it.
fn do_all<S: Shard>(
    top: &Top<S, S::Event, S::Answer>,
    place: &mut Place<S, S::Event, S::Answer>,
    asks: &mut Vec<(u64, S::Event)>,
    answers: &mut Vec<S::Answer>,
    number: u64,
    event: S::Event,
) -> S::Answer
    requires table { (place.old.table_id ≡ top.now.table_id) × (0 < top.now.table_id.words) }
    requires boxes { HasBoxes place.old.me place.old.me asks.old.items }
    requires none { answers.old.items ≡ [] }
    requires room { 0 < length asks.old.items → length asks.old.items < vec_capacity asks.old }
    requires alike { vec_capacity asks.old ≡ vec_capacity answers.old }
    requires number { number ≡ place.old.me.0.number }
    ensures same { (place.new.table_id ≡ place.old.table_id) × (place.new.id ≡ place.old.id) }
    ensures asks { (asks.new.items ≡ asks.old.items) × (length answers.new.items ≡ length asks.old.items) }
    ensures left { HasLeft place.new.me place.new.me (entries asks.old.items answers.new.items) }
    ensures extends { Extends (IsTurn S.acts S.together) place.old.me.0 (entry number event result)
        (rests (entries asks.old.items answers.new.items)) place.new.me.0 }
{
    let cell = top.exchange(place, 0, Cell::Empty);
    let Cell::Home(mut desk) = cell else {
        unreachable!()
    };
    let done = turn_on(&mut *desk.shard, asks, answers, number, event);
    top.exchange(place, 0, Cell::Home(desk)).expect_empty();
    enter_turn::<S, Brand>(top, place, asks, answers, number, &done);
    done.1
}

// Tells the seats that asked, and wakes them.
fn tell_all<S: Shard, R: Wait>(
    rt: &R,
    top: &Top<S, S::Event, S::Answer>,
    bells: &Bells,
    place: &mut Place<S, S::Event, S::Answer>,
    words: usize,
    asks: &[(u64, S::Event)],
    answers: Vec<S::Answer>,
)
    requires table { (place.old.table_id ≡ top.now.table_id) × (top.now.table_id.words ≡ words) × (0 < words) }
    requires below { (n : ℕ) → words ≡ 1 + n → AreBelow n asks.now }
    requires count { length answers.items ≡ length asks.now }
    requires left { HasLeft place.old.me place.old.me (entries asks.now answers.items) }
    ensures same { (place.new.table_id ≡ place.old.table_id) × (place.new.id ≡ place.old.id) }
    ensures done { HasLeft place.old.me place.new.me [] }
{
    let mut rest = asks;
    for answer in answers {
        let Some((ask, others)) = rest.split_first() else {
            unreachable!()
        };
        let word = ask.0 as usize + 1;
        top.exchange(place, word, Cell::Told(answer)).expect_empty();
        tell::<S>(top, place, word);
        bells.for_word(word).ring(rt);
        rest = others;
    }
}

// Room for the questions of a turn and for their answers, where any box asks and there is memory.
fn rooms<S: Shard>(
    alloc: Global,
    top: &Top<S, S::Event, S::Answer>,
    words: usize,
) -> (Vec<(u64, S::Event)>, Vec<S::Answer>)
    requires table { top.now.table_id.words ≡ words }
    ensures none { (result.0.items ≡ []) × (result.1.items ≡ []) }
    ensures capacity { vec_capacity result.0 ≡ vec_capacity result.1 }
{
    if asking::<S>(top, words).is_some() {
        let asks = Vec::with_capacity(alloc, words);
        let answers = Vec::with_capacity(alloc, words);
        if let (Ok(asks), Ok(answers)) = (asks, answers) {
            return (asks, answers);
        }
    }
    (Vec::new(alloc), Vec::new(alloc))
}

/// Acts as the seat that leads, and wakes one that asked behind its turn.
pub fn lead_all<S: Shard, R: Wait>(
    rt: &R,
    alloc: Global,
    top: &Top<S, S::Event, S::Answer>,
    bells: &Bells,
    place: &mut Place<S, S::Event, S::Answer>,
    words: usize,
    number: u64,
    event: S::Event,
) -> S::Answer
    requires table { (place.old.table_id ≡ top.now.table_id) × (top.now.table_id.words ≡ words) × (0 < words) }
    requires leads { HasBoxes place.old.me place.old.me [] }
    requires number { number ≡ place.old.me.0.number }
    ensures same { (place.new.table_id ≡ place.old.table_id) × (place.new.id ≡ place.old.id) }
    ensures acts { Acts (IsTurn S.acts S.together) place.old.me (entry number event result) place.new.me }
{
    let (mut asks, mut answers) = rooms::<S>(alloc, top, words);
    let most = asks.capacity().saturating_sub(1);
    grab_all::<S>(top, place, words, most, &mut asks);
    let answer = do_all::<S>(top, place, &mut asks, &mut answers, number, event);
    tell_all::<S, R>(rt, top, bells, place, words, asks.as_slice(), answers);
    if let Some(word) = asking::<S>(top, words) {
        bells.for_word(word).ring(rt);
    }
    answer
}
