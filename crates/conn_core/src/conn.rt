// Large values are dropped by a call before an early return: at a `?` their drop would be proved where it stands,
// each time anew.
ghost use Rattle.std.specs.Prelude.{◌≡◌, ◌≤◌, ◌+◌, ◌∷◌, ◌↔◌, [], length, OnOk, OnErr, IfOk, IfSome, IfNone};
ghost use Rattle.share_session.specs.Plans.{releases_of};
ghost use Rattle.share_calls.specs.Changes.{Fits, changed};
ghost use Rattle.conn_core.specs.Stream.{front_of, behind_frame, frame_at};
ghost use Rattle.conn_core.specs.Judging.{HasRoomFor};
ghost use Rattle.conn_core.specs.Conns.{new_conn, conn_after_bytes, conn_after_end, conn_after_reply, without_replies, taken_up, has_no_release, is_gone};
ghost use Rattle.conn_core.specs.Hands.{hand_part};
ghost use Rattle.conn_core.specs.Wishes.{conn_wish};
ghost use Rattle.std.specs.Option.{option_copied};
ghost use Rattle.conn_core.specs.Turning.{Tells, Waits, Awaits, FitsIn, awaited_part, turn, closing_turn, reply_turn, request_turn, verdict_turn, front_turn};
ghost use Rattle.conn_core.specs.Turning.{next_release, conn_with_reply, conn_at_stage, conn_after_answer};

use crate::begun::Begun;
use crate::hand::Hand;
use crate::judge::{Verdict, judge};
use crate::kept::Kept;
use crate::next::Next;
use crate::sending::{ReplyFrame, frame_reply};
use crate::stream::{Front, Stream, front_of};
use crate::work::Work;
use call_fold::{Part, PartAnswer, Stage};
use flex_fields::Items;
use share_calls::WaitWish;
use share_model::{AckList, Blob, CloseCause, NoMemory, Then, Visit};
use share_session::{SessionChange, Sessions};
use std::alloc::Global;
use std::collections::VecDeque;
use std::marker::Model;
use std::mem;
use topic_conf::Config;

/// One connection: what a client has sent, the request that is being answered, its share sessions, and the replies
/// that are finished.
///
/// Requests are answered in order, and the next frame is begun when the one before is answered. A request that wants
/// no reply, a Produce with acks 0, has none. Bytes may come in any pieces. The calls of one connection that take a
/// configuration are given the same one. A connection that closes asks the release of all that the members of its
/// sessions hold, before it is gone.
#[derive(Drop)]
pub struct Conn {
    alloc: Global,
    stream: Stream,
    work: Work,
    sessions: Sessions,
    replies: VecDeque<Blob>,
}

impl Model for Conn {
    ghost use Rattle.conn_core.specs.Conns.{ConnParts};
    ghost use Rattle.conn_core.specs.Seen.{seen};

    ghost Value = { ConnParts };

    ghost view = { λ c. seen c.stream c.work c.sessions c.replies.items };
}

// A frame of so many bytes, without its size.
fn frame(size: u32, stream: &[u8]) -> &[u8]
    requires { 4 + size ≤ length stream.now }
    ensures { result.now ≡ frame_at size stream.now }
{
    let (_, rest) = stream.split_at(4);
    let (frame, _) = rest.split_at(size as usize);
    frame
}

// What a request does to the sessions.
fn apply(sessions: &mut Sessions, change: Option<Kept<SessionChange>>) -> Result<(), NoMemory>
    requires fits { Fits change sessions.old }
    ensures done { OnOk result (sessions.new ≡ changed change sessions.old) }
    ensures kept { OnErr result (sessions.new ≡ sessions.old) }
{
    match change {
        Some(change) => sessions.apply(change.into_inner()),
        None => Ok(()),
    }
}

// The next release of a connection that is closing. It takes no memory.
fn next_release(alloc: Global, sessions: &Sessions) -> Next
    ensures { result ≡ next_release (releases_of sessions.now) }
{
    match sessions.next_release() {
        Some(step) => Next::Ask(Part::Visit {
            shard: step.shard,
            visit: Visit {
                group: step.group,
                member: step.member,
                acks: AckList::new(Items::new(Vec::new(alloc))),
                then: Then::Release,
            },
        }),
        None => Next::Gone,
    }
}

fn has_no_release(sessions: &Sessions) -> bool
    ensures { result ≡ has_no_release (releases_of sessions.now) }
{
    sessions.next_release().is_none()
}

impl Conn {
    /// A connection that has come.
    pub fn open(alloc: Global) -> Conn
        ensures { result ≡ new_conn }
    {
        Conn {
            alloc,
            stream: Stream::new(alloc),
            work: Work::Free,
            sessions: Sessions::new(alloc),
            replies: VecDeque::new(alloc),
        }
    }

    /// Bytes have come from the client. A connection that is closing drops them. After want of memory all is as before.
    pub fn feed(&mut self, piece: &[u8]) -> Result<(), NoMemory>
        ensures bytes { OnOk result (self.new ≡ conn_after_bytes piece.now self.old) }
        ensures kept { OnErr result (self.new ≡ self.old) }
    {
        match &self.work {
            Work::Closing => Ok(()),
            _ => self.stream.feed(piece),
        }
    }

    /// The connection is closed, by either side. Bytes that no request took, the request in hand and the sessions go;
    /// replies that are finished can still be taken. What the members of the sessions hold is released next: sessions
    /// in the order in which they were opened, and the partitions of each in the order in which they joined. It takes
    /// no memory.
    pub fn end(&mut self)
        ensures { self.new ≡ conn_after_end self.old }
    {
        match &self.work {
            Work::Closing => {}
            _ => {
                self.stream.clear();
                self.work.set(Work::Closing);
            }
        }
    }

    fn close(&mut self, cause: CloseCause) -> Next
        ensures { Tells (closing_turn cause self.old) result self.new }
    {
        self.end();
        Next::Closed(cause)
    }

    // A reply is finished to a frame of so many bytes, whose request does this to the sessions.
    fn finish_first(
        &mut self,
        size: u32,
        change: Option<Kept<SessionChange>>,
        frame: Blob,
    ) -> Result<Next, NoMemory>
        requires whole { 4 + size ≤ length self.old.unread }
        requires idle { self.old.work ≡ Work.Free }
        requires fits { Fits change self.old.sessions }
        ensures next { IfOk result (λ next. Tells (reply_turn (taken_up (behind_frame size self.old.unread) change self.old) (ReplyFrame.Frame frame)) next self.new) }
        ensures kept { OnErr result (self.new ≡ self.old) }
    {
        if self.replies.reserve(1).is_err() {
            drop(change);
            return Err(NoMemory);
        }
        apply(&mut self.sessions, change)?;
        self.replies.push_back(frame)?;
        self.stream.take(4 + size as usize);
        Ok(Next::Ready)
    }

    // A frame of so many bytes is answered by this, and its request does this to the sessions.
    fn send(
        &mut self,
        size: u32,
        change: Option<Kept<SessionChange>>,
        reply: ReplyFrame,
    ) -> Result<Next, NoMemory>
        requires whole { 4 + size ≤ length self.old.unread }
        requires idle { self.old.work ≡ Work.Free }
        requires fits { Fits change self.old.sessions }
        ensures next { IfOk result (λ next. Tells (reply_turn (taken_up (behind_frame size self.old.unread) change self.old) reply) next self.new) }
        ensures kept { OnErr result (self.new ≡ self.old) }
    {
        match reply {
            ReplyFrame::Frame(frame) => self.finish_first(size, change, frame),
            ReplyFrame::Nothing => {
                apply(&mut self.sessions, change)?;
                self.stream.take(4 + size as usize);
                Ok(Next::Ready)
            }
            ReplyFrame::TooLong => {
                apply(&mut self.sessions, change)?;
                Ok(self.close(CloseCause::LongReply))
            }
        }
    }

    // The first part of a request that a frame of so many bytes begins, and that does this to the sessions.
    fn first_part(
        &mut self,
        size: u32,
        change: Option<Kept<SessionChange>>,
        hand: &Hand,
    ) -> Result<Part, NoMemory>
        requires whole { 4 + size ≤ length self.old.unread }
        requires idle { self.old.work ≡ Work.Free }
        requires fits { Fits change self.old.sessions }
        ensures part { IfOk result (λ part. part ≡ hand_part hand.now) }
        ensures taken { OnOk result (self.new ≡ taken_up (behind_frame size self.old.unread) change self.old) }
        ensures kept { OnErr result (self.new ≡ self.old) }
    {
        match hand.part(self.alloc) {
            Ok(first) => match apply(&mut self.sessions, change) {
                Ok(()) => {
                    self.stream.take(4 + size as usize);
                    Ok(first)
                }
                Err(NoMemory) => {
                    drop(first);
                    Err(NoMemory)
                }
            },
            Err(NoMemory) => {
                drop(change);
                Err(NoMemory)
            }
        }
    }

    // A frame of so many bytes begins this request, which does this to the sessions.
    fn begin(
        &mut self,
        size: u32,
        change: Option<Kept<SessionChange>>,
        tags: bool,
        correlation: i32,
        hand: Hand,
    ) -> Result<Next, NoMemory>
        requires whole { 4 + size ≤ length self.old.unread }
        requires idle { self.old.work ≡ Work.Free }
        requires fits { Fits change self.old.sessions }
        ensures next { IfOk result (λ next. Tells (request_turn (taken_up (behind_frame size self.old.unread) change self.old) tags correlation hand) next self.new) }
        ensures kept { OnErr result (self.new ≡ self.old) }
    {
        match self.first_part(size, change, &hand) {
            Ok(first) => {
                self.work.set(Work::Busy {
                    tags,
                    correlation,
                    hand,
                });
                Ok(Next::Ask(first))
            }
            Err(NoMemory) => {
                drop(hand);
                Err(NoMemory)
            }
        }
    }

    // A frame of so many bytes was judged.
    fn take_up(&mut self, size: u32, verdict: Verdict) -> Result<Next, NoMemory>
        requires whole { 4 + size ≤ length self.old.unread }
        requires idle { self.old.work ≡ Work.Free }
        requires room { HasRoomFor verdict self.old.sessions }
        ensures next { IfOk result (λ next. Tells (verdict_turn self.old (behind_frame size self.old.unread) verdict) next self.new) }
        ensures kept { OnErr result (self.new ≡ self.old) }
    {
        match verdict {
            Verdict::Refused(cause) => Ok(self.close(cause)),
            Verdict::Taken {
                tags,
                correlation,
                begun,
            } => {
                let Begun { stage, change } = begun;
                match stage {
                    Stage::Says(body) => match frame_reply(self.alloc, tags, correlation, body) {
                        Ok(reply) => self.send(size, change, reply),
                        Err(NoMemory) => {
                            drop(change);
                            Err(NoMemory)
                        }
                    },
                    Stage::Asks(hand) => self.begin(size, change, tags, correlation, hand),
                }
            }
        }
    }

    // The next frame, if it is there.
    fn next_frame(&mut self, conf: &Config) -> Result<Next, NoMemory>
        requires idle { self.old.work ≡ Work.Free }
        ensures next { IfOk result (λ next. Tells (front_turn conf.now self.old (front_of self.old.unread)) next self.new) }
        ensures kept { OnErr result (self.new ≡ self.old) }
    {
        match front_of(self.stream.as_slice()) {
            Front::Partial => Ok(Next::Idle),
            Front::TooLong { size } => Ok(self.close(CloseCause::TooLong { size })),
            Front::Whole { size } => {
                let frame = frame(size, self.stream.as_slice());
                let verdict = judge(self.alloc, conf, &self.sessions, frame)?;
                self.take_up(size, verdict)
            }
        }
    }

    fn turn(&mut self, conf: &Config) -> Result<Next, NoMemory>
        ensures next { IfOk result (λ next. Tells (turn conf.now self.old) next self.new) }
        ensures kept { OnErr result (self.new ≡ self.old) }
    {
        match &self.work {
            Work::Free => self.next_frame(conf),
            Work::Busy { hand, .. } => {
                let part = hand.part(self.alloc)?;
                Ok(Next::Ask(part))
            }
            Work::Overlong => Ok(self.close(CloseCause::LongReply)),
            Work::Closing => Ok(next_release(self.alloc, &self.sessions)),
        }
    }

    /// What the connection does next: it waits, asks a part, has answered a request that needs no further part,
    /// closes, or is gone. What a request does to the sessions is done when its frame is taken up. It waits exactly
    /// where it isn't closing, no request is in hand, and what is unread begins with neither a whole frame nor the
    /// size of one that is too long. Until a `give` or an `end` it answers the same part. After want of memory all is
    /// as before.
    pub fn next_part(&mut self, conf: &Config) -> Result<Next, NoMemory>
        ensures next { IfOk result (λ next. Tells (turn conf.now self.old) next self.new) }
        ensures idle { IfOk result (λ next. (next ≡ Next.Idle) ↔ Waits self.old) }
        ensures asks { IfOk result (λ next. Awaits next self.new) }
        ensures kept { OnErr result (self.new ≡ self.old) }
    {
        self.turn(conf)
    }

    // The parts of the request in hand are done.
    fn finish(&mut self, reply: ReplyFrame) -> Result<(), NoMemory>
        requires idle { self.old.work ≡ Work.Free }
        ensures ok { OnOk result (self.new ≡ conn_with_reply self.old reply) }
        ensures err { OnErr result (self.new ≡ self.old) }
    {
        match reply {
            ReplyFrame::Nothing => {}
            ReplyFrame::Frame(frame) => self.replies.push_back(frame)?,
            ReplyFrame::TooLong => self.work.set(Work::Overlong),
        }
        Ok(())
    }

    // The request in hand is at this stage.
    fn settle(&mut self, tags: bool, correlation: i32, stage: Stage<Hand>) -> Result<(), NoMemory>
        requires idle { self.old.work ≡ Work.Free }
        ensures ok { OnOk result (self.new ≡ conn_at_stage self.old tags correlation stage) }
        ensures err { OnErr result (self.new ≡ self.old) }
    {
        match stage {
            Stage::Asks(hand) => {
                self.work.set(Work::Busy {
                    tags,
                    correlation,
                    hand,
                });
                Ok(())
            }
            Stage::Says(body) => {
                let reply = frame_reply(self.alloc, tags, correlation, body)?;
                self.finish(reply)
            }
        }
    }

    fn take_answer(&mut self, answer: PartAnswer) -> Result<(), NoMemory>
        requires fits { FitsIn (awaited_part self.old) answer }
        ensures ok { OnOk result (self.new ≡ conn_after_answer answer self.old) }
        ensures err { OnErr result (conn_after_end self.new ≡ conn_after_end self.old) }
    {
        match mem::replace(&mut self.work, Work::Free) {
            Work::Busy {
                tags,
                correlation,
                hand,
            } => {
                let stage = hand.answer(self.alloc, answer)?;
                self.settle(tags, correlation, stage)
            }
            other => {
                drop(answer);
                if let Work::Closing = &other {
                    self.sessions.release_done();
                }
                self.work.set(other);
                Ok(())
            }
        }
    }

    /// The answer to the part that `next_part` asked: of its kind, each offset at most 2^63 - 1 and each count at
    /// most 32767. With the last answer the reply, if there is one, is finished, unless it is too long: then
    /// `next_part` closes the connection. Where no part is asked nothing changes. The answer to a release takes it
    /// off, whatever it is. Want of memory ends the connection as `end` does.
    pub fn give(&mut self, _conf: &Config, answer: PartAnswer) -> Result<(), NoMemory>
        requires fits { FitsIn (awaited_part self.old) answer }
        ensures answer { OnOk result (self.new ≡ conn_after_answer answer self.old) }
        ensures no_memory { OnErr result (self.new ≡ conn_after_end self.old) }
    {
        match self.take_answer(answer) {
            Ok(()) => Ok(()),
            Err(NoMemory) => {
                self.end();
                Err(NoMemory)
            }
        }
    }

    /// For what the request in hand waits before its first part, until that has its answer. `None` where it doesn't
    /// wait, or no request is in hand. Its part may be asked all the same.
    pub fn wait_wish(&self) -> Option<&WaitWish>
        ensures wish { option_copied result ≡ conn_wish self.now }
    {
        match &self.work {
            Work::Busy { hand, .. } => hand.wish(),
            Work::Free | Work::Overlong | Work::Closing => None,
        }
    }

    /// Whether it has closed, and has nothing left to release.
    pub fn is_gone(&self) -> bool
        ensures { result ≡ is_gone self.now }
    {
        match &self.work {
            Work::Closing => has_no_release(&self.sessions),
            _ => false,
        }
    }

    /// The oldest finished reply, the whole frame with its size.
    pub fn take_reply(&mut self) -> Option<Blob>
        ensures some { IfSome result (λ reply. self.old.replies ≡ reply ∷ self.new.replies) }
        ensures none { IfNone result ((self.old.replies ≡ []) × (self.new ≡ self.old)) }
        ensures rest { self.new ≡ conn_after_reply self.old }
    {
        self.replies.pop_front()
    }
}
