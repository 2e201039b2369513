// The timer of a program that waits: it wakes it once a moment has come. That a wake comes isn't claimed.
ghost use Rattle.futures.specs.Task.{IsArmed, Keeps};

use futures::task::{Context, Poll, Source, Waker};
use futures::util::wheel::Wheel;
use share_model::NoMemory;
use std::alloc::Global;
use std::sync::{Mutex, Wait};

// The one key of the wheel.
const KEY: usize = 0;

#[derive(Drop)]
struct Alarm {
    wheel: Wheel,
    waker: Option<Waker>,
    ended: bool,
}

/// Wakes one task once a moment has come.
#[derive(Drop)]
pub struct Timer {
    source: Source,
    alarm: Mutex<Alarm>,
}

impl Timer {
    pub fn new(alloc: Global) -> Result<Timer, NoMemory> {
        let mut wheel = Wheel::new(alloc)?;
        wheel.reserve_key(KEY)?;
        let alarm = Alarm {
            wheel,
            waker: None,
            ended: false,
        };
        Ok(Timer {
            source: Source::new(),
            alarm: Mutex::new(alarm),
        })
    }

    /// Has the context's task woken once this moment has come.
    pub fn register<R: Wait>(
        &self,
        rt: &R,
        deadline: u64,
        cx: &mut Context<'_>,
    ) -> Result<(), NoMemory>
        ensures armed { IsArmed cx.new }
        ensures kept { Keeps cx.old cx.new }
    {
        let mut alarm = self.alarm.lock(rt);
        let alarm = &mut *alarm;
        let _: Poll<()> = cx.register(&self.source, &mut alarm.waker);
        alarm.wheel.reserve_key(KEY)?;
        alarm.wheel.insert(KEY, deadline);
        Ok(())
    }

    /// Wakes the task, if its moment has come. False: the end was told.
    pub fn turn<R: Wait>(&self, rt: &R, now: u64) -> bool {
        let mut alarm = self.alarm.lock(rt);
        let alarm = &mut *alarm;
        while let Some(_key) = alarm.wheel.poll(now) {
            alarm.waker = None;
        }
        !alarm.ended
    }

    /// Tells the end.
    pub fn end<R: Wait>(&self, rt: &R) {
        let mut alarm = self.alarm.lock(rt);
        alarm.ended = true;
    }
}
