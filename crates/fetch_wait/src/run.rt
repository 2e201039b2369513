ghost use Rattle.std.specs.Prelude.{◌≡◌};
ghost use Rattle.fetch_wait.specs.Polls.{Waits};

use crate::wait::{FetchWait, WaitEnd};
use crate::watch::Watch;
use futures::Future;
use futures::task::{Poll, Queue};
use std::sync::Wait;

/// Polls the wait until it ends, as the one task of a queue of `make_queue`. Between polls the thread sleeps at the
/// queue's doorbell.
pub fn block_on<R: Wait, W: Watch>(rt: &R, queue: &Queue, wait: &mut FetchWait<W>) -> WaitEnd
    ensures waits { Waits W.acts W.told wait.old.places wait.old.deadline wait.old.watch result wait.new.watch }
    ensures stays { (wait.new.places ≡ wait.old.places) × (wait.new.deadline ≡ wait.old.deadline) }
{
    for _ in rt.forever() {
        let Some(mut cx) = queue.next(rt) else {
            continue;
        };
        let polled = wait.poll(&mut cx);
        cx.end(&polled);
        if let Poll::Ready(end) = polled {
            return end;
        }
    }
    unreachable!()
}
