//! What the lock guards.
/// State that is acted on by events, one at a time or several in one turn.
///
/// The relation `acts` says what an act may do: the shard before, the event, the answer and the shard after. What an
/// answer leaves that tells of want of memory is said there too. The relation `together` says what a turn may do
/// besides, in which the shard does several events in another way than one after the other; a shard that never does
/// so has none.
pub trait Shard: Sized {
    ghost use Rattle.std.specs.Prelude.{◌≡◌, ◌≤◌, List, [], length, vec_capacity};
    ghost use Rattle.shard_lock.specs.declared.shard.Entry.{Entry};
    ghost use Rattle.turn_lock.specs.Asking.{entries};
    ghost use Rattle.turn_lock.specs.Turns.{IsTurn};

    type Event: Drop;

    type Answer: Drop;

    ghost acts: { Self → Self.Event → Self.Answer → Self → Type 0 };

    ghost together: { Self → List (Entry Self.Event Self.Answer) → Self → Type 0 };

    fn act(&mut self, event: &Self::Event) -> Self::Answer
        ensures { acts self.old event.now result self.new };

    /// One turn: does what passes asked, each a number and an event, and lays their answers down in the same order.
    /// One event is done after the other, unless the shard does them together.
    fn act_all(&mut self, asks: &Vec<(u64, Self::Event)>, answers: &mut Vec<Self::Answer>)
        requires none { answers.old.items ≡ [] }
        requires room { length asks.now.items ≤ vec_capacity answers.old }
        ensures count { length answers.new.items ≡ length asks.now.items }
        ensures turn { IsTurn acts together self.old (entries asks.now.items answers.new.items) self.new }
    {
        for ask in asks {
            answers.push_reserved(self.act(&ask.1));
        }
    }
}
