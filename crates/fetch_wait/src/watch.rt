ghost use Rattle.std.specs.Prelude.{OnOk, OnErr, ◌∷◌, [], List, Option};
ghost use Rattle.futures.specs.Task.{IsArmed, Keeps};
ghost use Rattle.fetch_wait.specs.Calls.{TellsMore};
ghost use Rattle.fetch_wait.specs.declared.watch.WatchCall.{WatchCall};
ghost use Rattle.fetch_wait.specs.declared.watch.WatchCall.TheVariants.{Registers, RegistersTimer, Refuses, RefusesTimer, Looks, Asks};

use futures::task::Context;
use share_model::{NoMemory, Offer};

/// A call of a watch with its answer.
#[derive(Clone, Copy)]
pub enum WatchCall {
    /// It registered with a place.
    Registers { place: u32 },
    /// It registered with the timer.
    RegistersTimer { deadline: u64 },
    /// It found no memory to register with a place.
    Refuses { place: u32 },
    /// It found no memory to register with the timer.
    RefusesTimer { deadline: u64 },
    /// It looked at a place, which has this.
    Looks { place: u32, offer: Offer },
    /// It asked the clock.
    Asks { now: u64 },
}

/// What a wait looks at: places by number, a timer and a clock.
pub trait Watch: Drop {
    /// What a call does to it.
    ghost acts: { Self → WatchCall → Self → Type 0 };

    /// Its calls in order, where it tells them.
    ghost told: { Self → Option (List WatchCall) };

    /// Has the context's task woken by the next change of a place.
    fn register(&mut self, place: u32, cx: &mut Context<'_>) -> Result<(), NoMemory>
        ensures ok { OnOk result (acts self.old (Registers place) self.new) }
        ensures ok_told { OnOk result (TellsMore (told self.old) (told self.new) (Registers place ∷ [])) }
        ensures err { OnErr result (acts self.old (Refuses place) self.new) }
        ensures err_told { OnErr result (TellsMore (told self.old) (told self.new) (Refuses place ∷ [])) }
        ensures armed { OnOk result (IsArmed cx.new) }
        ensures kept { Keeps cx.old cx.new };

    /// Has the context's task woken once this moment has come.
    fn register_timer(&mut self, deadline: u64, cx: &mut Context<'_>) -> Result<(), NoMemory>
        ensures ok { OnOk result (acts self.old (RegistersTimer deadline) self.new) }
        ensures ok_told { OnOk result (TellsMore (told self.old) (told self.new) (RegistersTimer deadline ∷ [])) }
        ensures err { OnErr result (acts self.old (RefusesTimer deadline) self.new) }
        ensures err_told { OnErr result (TellsMore (told self.old) (told self.new) (RefusesTimer deadline ∷ [])) }
        ensures armed { OnOk result (IsArmed cx.new) }
        ensures kept { Keeps cx.old cx.new };

    /// What a place has now.
    fn look(&mut self, place: u32) -> Offer
        ensures acts { acts self.old (Looks place result) self.new }
        ensures told { TellsMore (told self.old) (told self.new) (Looks place result ∷ []) };

    /// The moment, in milliseconds.
    fn now_ms(&mut self) -> u64
        ensures acts { acts self.old (Asks result) self.new }
        ensures told { TellsMore (told self.old) (told self.new) (Asks result ∷ []) };
}
