//! The steps of a seat, each of one word.
ghost use Rattle.std.specs.Prelude.{◌≡◌, ◌+◌, ◌<◌, Some};
ghost use mathlib.Core.Option.{none};
ghost use Rattle.atomic_table.specs.Table.{step};
ghost use Rattle.turn_lock.specs.declared.board.Role.TheVariants.{Idle};
ghost use Rattle.turn_lock.specs.Rule.{CanAsk, CanEnter, CanShut, CanTell, IsAsking, IsLeading};
ghost use Rattle.turn_lock.specs.Rule.{asks, entered, grabbed, led, opens, saw, shuts, tells, withdrew};
ghost use Rattle.turn_lock.specs.Turns.{IsTurn};

use crate::board::{
    ANSWERED, ASKED, Ask, Asked, BARE, Enter, FREE, Grab, LED, Lead, Open, Place, See, Shut, Tell,
    Told, Top, Withdraw,
};
use crate::shard::Shard;

/// Takes the shard, where no seat has it.
pub fn lead<S: Shard>(
    top: &Top<S, S::Event, S::Answer>,
    place: &mut Place<S, S::Event, S::Answer>,
) -> u64
    requires table { (place.old.table_id ≡ top.now.table_id) × (0 < top.now.table_id.words) }
    requires idle { (place.old.me.0.role ≡ Idle) × (0 < place.old.me.0.stands) }
    ensures same { (place.new.table_id ≡ place.old.table_id) × (place.new.id ≡ place.old.id) }
    ensures told { led (step top.now.table_id.slots 0 0 1 none) place.old.me result place.new.me }
{
    top.compare_exchange::<Lead>(place, 0, FREE, LED)
}

/// Takes the box of another seat, if that has asked.
pub fn grab<S: Shard>(
    top: &Top<S, S::Event, S::Answer>,
    place: &mut Place<S, S::Event, S::Answer>,
    word: usize,
) -> u64
    requires table { (place.old.table_id ≡ top.now.table_id) × (word < top.now.table_id.words) }
    requires some { 0 < word }
    requires leads { IsLeading place.old.me }
    ensures same { (place.new.table_id ≡ place.old.table_id) × (place.new.id ≡ place.old.id) }
    ensures told { grabbed (step top.now.table_id.slots word 1 0 none) place.old.me result place.new.me }
{
    top.compare_exchange::<Grab>(place, word, ASKED, BARE)
}

/// Enters what was done for those whose boxes were grabbed, and then for this seat, and gives the shard back.
pub fn enter<S: Shard, T: Told<S::Event, S::Answer>>(
    top: &Top<S, S::Event, S::Answer>,
    place: &mut Place<S, S::Event, S::Answer>,
)
    requires table { (place.old.table_id ≡ top.now.table_id) × (0 < top.now.table_id.words) }
    requires can { CanEnter (IsTurn S.acts S.together) T.entries place.old.me }
    ensures same { (place.new.table_id ≡ place.old.table_id) × (place.new.id ≡ place.old.id) }
    ensures told { entered (IsTurn S.acts S.together) T.entries (step top.now.table_id.slots 0 0 0 none)
        place.old.me 0 place.new.me }
{
    top.store::<Enter<S, T>>(place, 0, FREE);
}

/// Gives a box back with its answer.
pub fn tell<S: Shard>(
    top: &Top<S, S::Event, S::Answer>,
    place: &mut Place<S, S::Event, S::Answer>,
    word: usize,
)
    requires table { (place.old.table_id ≡ top.now.table_id) × (word < top.now.table_id.words) }
    requires can { CanTell word place.old.me }
    ensures same { (place.new.table_id ≡ place.old.table_id) × (place.new.id ≡ place.old.id) }
    ensures told { tells (step top.now.table_id.slots word 2 0 none) place.old.me 2 place.new.me }
{
    top.store::<Tell>(place, word, ANSWERED);
}

/// Takes the seat's own box.
pub fn open<S: Shard>(
    top: &Top<S, S::Event, S::Answer>,
    place: &mut Place<S, S::Event, S::Answer>,
    word: usize,
)
    requires table { (place.old.table_id ≡ top.now.table_id) × (word < top.now.table_id.words) }
    requires word { word ≡ 1 + place.old.me.0.number }
    requires idle { (place.old.me.0.role ≡ Idle) × (0 < place.old.me.0.stands) }
    ensures same { (place.new.table_id ≡ place.old.table_id) × (place.new.id ≡ place.old.id) }
    ensures told { (found : _) × opens (step top.now.table_id.slots word 0 0 none) place.old.me found place.new.me }
{
    top.load::<Open>(place, word);
}

/// Gives it back with an event.
pub fn ask<S: Shard, T: Asked<S::Event>>(
    top: &Top<S, S::Event, S::Answer>,
    place: &mut Place<S, S::Event, S::Answer>,
    word: usize,
)
    requires table { (place.old.table_id ≡ top.now.table_id) × (word < top.now.table_id.words) }
    requires word { word ≡ 1 + place.old.me.0.number }
    requires can { CanAsk T.event word place.old.me }
    ensures same { (place.new.table_id ≡ place.old.table_id) × (place.new.id ≡ place.old.id) }
    ensures told { asks T.event (step top.now.table_id.slots word 1 0 none) place.old.me 1 place.new.me }
{
    top.store::<Ask<T>>(place, word, ASKED);
}

/// Looks whether this seat was answered, and takes the answer.
pub fn see<S: Shard>(
    top: &Top<S, S::Event, S::Answer>,
    place: &mut Place<S, S::Event, S::Answer>,
    word: usize,
) -> u64
    requires table { (place.old.table_id ≡ top.now.table_id) × (word < top.now.table_id.words) }
    requires word { word ≡ 1 + place.old.me.0.number }
    requires asks { IsAsking place.old.me }
    ensures same { (place.new.table_id ≡ place.old.table_id) × (place.new.id ≡ place.old.id) }
    ensures told { saw (IsTurn S.acts S.together) (step top.now.table_id.slots word 0 0 none)
        place.old.me result place.new.me }
{
    top.load::<See<S>>(place, word)
}

/// Takes the event back, unless another seat has it.
pub fn withdraw<S: Shard>(
    top: &Top<S, S::Event, S::Answer>,
    place: &mut Place<S, S::Event, S::Answer>,
    word: usize,
) -> u64
    requires table { (place.old.table_id ≡ top.now.table_id) × (word < top.now.table_id.words) }
    requires word { word ≡ 1 + place.old.me.0.number }
    requires asks { IsAsking place.old.me }
    ensures same { (place.new.table_id ≡ place.old.table_id) × (place.new.id ≡ place.old.id) }
    ensures told { withdrew (step top.now.table_id.slots word 1 0 none) place.old.me result place.new.me }
{
    top.compare_exchange::<Withdraw>(place, word, ASKED, BARE)
}

/// Gives the seat's own box back, empty.
pub fn shut<S: Shard>(
    top: &Top<S, S::Event, S::Answer>,
    place: &mut Place<S, S::Event, S::Answer>,
    word: usize,
)
    requires table { (place.old.table_id ≡ top.now.table_id) × (word < top.now.table_id.words) }
    requires word { word ≡ 1 + place.old.me.0.number }
    requires can { CanShut word place.old.me }
    ensures same { (place.new.table_id ≡ place.old.table_id) × (place.new.id ≡ place.old.id) }
    ensures told { shuts (step top.now.table_id.slots word 0 0 none) place.old.me 0 place.new.me }
{
    top.store::<Shut>(place, word, BARE);
}
