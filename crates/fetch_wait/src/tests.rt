use crate::wait::{FetchWait, WaitEnd};
use crate::watch::{Watch, WatchCall};
use futures::task::{Context, Poll};
use futures::test::MockTask;
use share_model::{NoMemory, Offer};
use std::test::Fail;

// A watch of two places that gives offers in order, and has one moment. It tells its calls until it finds no memory for
// one.
#[derive(Drop)]
struct Scripted {
    offers: [Offer; 4],
    looks: usize,
    now: u64,
    calls: Vec<WatchCall>,
    lost: bool,
}

impl Scripted {
    ghost use Rattle.std.specs.Prelude.{Some, None, ◌∷◌, [], if◌then◌else◌};
    ghost use Rattle.fetch_wait.specs.Calls.{TellsMore};

    fn note(&mut self, call: WatchCall)
        ensures { TellsMore (if self.old.lost then None else Some self.old.calls.items) (if self.new.lost then None else Some self.new.calls.items) (call ∷ []) }
    {
        if self.calls.push(call).is_err() {
            self.lost = true;
        }
    }
}

impl Watch for Scripted {
    ghost use Rattle.std.specs.Prelude.{Some, None, ⊤, if◌then◌else◌};

    ghost acts = { λ _ _ _. ⊤ };

    ghost told = { λ w. if w.lost then None else Some w.calls.items };

    fn register(&mut self, place: u32, cx: &mut Context<'_>) -> Result<(), NoMemory> {
        self.note(WatchCall::Registers { place });
        let _: Poll<()> = cx.yield_now();
        Ok(())
    }

    fn register_timer(&mut self, deadline: u64, cx: &mut Context<'_>) -> Result<(), NoMemory> {
        self.note(WatchCall::RegistersTimer { deadline });
        let _: Poll<()> = cx.yield_now();
        Ok(())
    }

    fn look(&mut self, place: u32) -> Offer {
        let offer = if self.looks < 4 {
            self.offers[self.looks]
        } else {
            Offer::Nothing
        };
        self.looks = self.looks.saturating_add(1);
        self.note(WatchCall::Looks { place, offer });
        offer
    }

    fn now_ms(&mut self) -> u64 {
        let now = self.now;
        self.note(WatchCall::Asks { now });
        now
    }
}

#[test]
fn a_slot_at_the_second_place_ends_the_wait(rt: HostRuntime) -> Result<(), Fail> {
    let watch = Scripted {
        offers: [
            Offer::Nothing,
            Offer::Nothing,
            Offer::Nothing,
            Offer::Slot { offset: 7 },
        ],
        looks: 0,
        now: 100,
        calls: Vec::new(rt.alloc()),
        lost: false,
    };
    let task = MockTask::new(&rt)?;
    let mut wait = FetchWait::new(watch, 2, 500);
    assert!(rt; matches!(task.poll(&mut wait), Poll::Pending));
    assert_eq!(rt; wait.watch.calls.len(), 6);
    assert!(rt;
        matches!(
            task.poll(&mut wait),
            Poll::Ready(WaitEnd::Ready {
                place: 1,
                offer: Offer::Slot { offset: 7 }
            })
        )
    );
    assert_eq!(rt; wait.watch.calls.len(), 11);
    Ok(())
}

#[test]
fn a_wait_ends_at_its_deadline(rt: HostRuntime) -> Result<(), Fail> {
    let watch = Scripted {
        offers: [Offer::Nothing; 4],
        looks: 0,
        now: 499,
        calls: Vec::new(rt.alloc()),
        lost: false,
    };
    let task = MockTask::new(&rt)?;
    let mut wait = FetchWait::new(watch, 1, 500);
    assert!(rt; matches!(task.poll(&mut wait), Poll::Pending));
    wait.watch.now = 500;
    assert!(rt;
        matches!(
            task.poll(&mut wait),
            Poll::Ready(WaitEnd::TimedOut { now: 500 })
        )
    );
    Ok(())
}
