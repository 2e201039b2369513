// What a poll gives, read off its last call.
ghost use Rattle.std.specs.Prelude.{ℕ, List};
ghost use Rattle.futures.specs.declared.task.Poll.{Poll};
ghost use Rattle.fetch_wait.specs.declared.watch.WatchCall.{WatchCall};
ghost use Rattle.fetch_wait.specs.declared.wait.WaitEnd.{WaitEnd};
ghost use Rattle.fetch_wait.specs.Polls.{ArePoll, EndsBy, last_call};

/// A poll is ready exactly where its last look found something, with that place and offer. Where its last call asked the
/// clock, it is pending exactly where the answer is below the deadline, and else timed out with that answer. Want of
/// memory comes from a registration alone.
pub fn the_last_call_ends_a_poll()
    ensures { (places deadline : ℕ) (calls : List WatchCall) (result : Poll WaitEnd) → ArePoll places deadline calls result → EndsBy deadline (last_call calls) result }
{}
