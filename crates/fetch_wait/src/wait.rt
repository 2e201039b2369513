ghost use Rattle.std.specs.Prelude.{◌≡◌, ◌<◌, ◌≢◌, ◌++◌, ◌∷◌, [], IfSome, IfNone, OnOk, OnErr, ⊤};
ghost use Rattle.futures.specs.Task.{Covers, IsArmed, Keeps};
ghost use Rattle.futures.specs.Poll.{IfReady, OnPending};
ghost use Rattle.share_model.specs.declared.offer.Offer.TheVariants.{Nothing};
ghost use Rattle.fetch_wait.specs.declared.watch.WatchCall.TheVariants.{Looks};
ghost use Rattle.fetch_wait.specs.Calls.{Calls};
ghost use Rattle.fetch_wait.specs.Polls.{AreLooks, AreRefused, Polls, nothing_at, registered_all};

use crate::watch::Watch;
use futures::Future;
use futures::task::{Context, Poll};
use share_model::{NoMemory, Offer};

/// How a wait ended.
#[derive(Clone, Copy)]
pub enum WaitEnd {
    /// This place, the first that has something, has this.
    Ready { place: u32, offer: Offer },
    /// No place has anything, and this moment isn't before the deadline.
    TimedOut { now: u64 },
    /// A registration found no memory.
    NoMemory,
}

/// A wait until one of the places 0 to `places` - 1 has something, or the deadline has come.
#[derive(Drop)]
pub struct FetchWait<W: Watch> {
    pub watch: W,
    pub places: u32,
    pub deadline: u64,
}

impl<W: Watch> FetchWait<W> {
    pub fn new(watch: W, places: u32, deadline: u64) -> FetchWait<W>
        ensures watch { result.watch ≡ watch }
        ensures limits { (result.places ≡ places) × (result.deadline ≡ deadline) }
    {
        FetchWait {
            watch,
            places,
            deadline,
        }
    }
}

// Registers with each place, and then with the timer.
fn register_all<W: Watch>(
    watch: &mut W,
    places: u32,
    deadline: u64,
    cx: &mut Context<'_>,
) -> Result<(), NoMemory>
    ensures ok { OnOk result (Calls W.acts W.told (registered_all places deadline) watch.old watch.new) }
    ensures err { OnErr result ((calls : _) × AreRefused places deadline calls × Calls W.acts W.told calls watch.old watch.new) }
    ensures armed { OnOk result (IsArmed cx.new) }
    ensures kept { Keeps cx.old cx.new }
{
    for place in 0..places {
        if let Err(fault) = watch.register(place, cx) {
            return Err(fault);
        }
    }
    match watch.register_timer(deadline, cx) {
        Ok(()) => Ok(()),
        Err(fault) => Err(fault),
    }
}

// The first place that has something.
fn first_found<W: Watch>(watch: &mut W, places: u32) -> Option<(u32, Offer)>
    ensures found { IfSome result (λ x. (x.0 < places) × (x.1 ≢ Nothing) × Calls W.acts W.told (nothing_at x.0 ++ Looks x.0 x.1 ∷ []) watch.old watch.new) }
    ensures none { IfNone result (Calls W.acts W.told (nothing_at places) watch.old watch.new) }
{
    for place in 0..places {
        match watch.look(place) {
            Offer::Nothing => {}
            offer => return Some((place, offer)),
        }
    }
    None
}

// Looks at the places, and then at the clock.
fn looked<W: Watch>(watch: &mut W, places: u32, deadline: u64) -> Poll<WaitEnd>
    ensures { (looks : _) × AreLooks places deadline looks result × Calls W.acts W.told looks watch.old watch.new }
{
    if let Some((place, offer)) = first_found(watch, places) {
        return Poll::Ready(WaitEnd::Ready { place, offer });
    }
    let now = watch.now_ms();
    if now < deadline {
        Poll::Pending
    } else {
        Poll::Ready(WaitEnd::TimedOut { now })
    }
}

impl<W: Watch> Future for FetchWait<W> {
    type Output = WaitEnd;

    fn poll(&mut self, cx: &mut Context<'_>) -> Poll<WaitEnd>
        ensures value { IfReady result (λ _. ⊤) }
        ensures again { OnPending result ⊤ }
        ensures same { OnPending result ((x : WaitEnd) → ⊤ → ⊤) }
        ensures registered { OnPending result (Covers cx.new (λ _. ⊥)) }
        ensures kept { Keeps cx.old cx.new }
        ensures polls { Polls W.acts W.told self.old.places self.old.deadline self.old.watch result self.new.watch }
        ensures stays { (self.new.places ≡ self.old.places) × (self.new.deadline ≡ self.old.deadline) }
    {
        let FetchWait {
            watch,
            places,
            deadline,
        } = self;
        match register_all(watch, *places, *deadline, cx) {
            Ok(()) => looked(watch, *places, *deadline),
            Err(NoMemory) => Poll::Ready(WaitEnd::NoMemory),
        }
    }
}
