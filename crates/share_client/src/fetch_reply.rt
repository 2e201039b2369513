// Frames that are replies to ShareFetch.
ghost use Rattle.std.specs.Prelude.{◌≡◌, true};
ghost use Rattle.req_head.specs.Heads.{reply_head};
ghost use Rattle.flex_fields.specs.Cursors.{Gives};
ghost use Rattle.flex_fields.specs.Reading.{whole_at};
ghost use Rattle.share_client.specs.Frames.{IsAnswer, IsFrame, said};
ghost use Rattle.share_client.specs.Fetches.{HearsFetch, IsJudged, ends_consumer, located_in, starts_anew};

use crate::fault::{ClientFault, fault_of};
use crate::fetched::LocatedFetch;
use crate::frame::{ReplyHead, content};
use crate::judge::{Tally, judge_topics};
use crate::located::Locate;
use flex_fields::{Cursor, Wire, WireFault};
use std::alloc::Global;
use std::collections::BTreeSet;

const SHARE_SESSION_NOT_FOUND: i16 = 122;

const INVALID_SHARE_SESSION_EPOCH: i16 = 123;

impl Locate for ReplyHead {
    ghost reading = { (reply_head true).read };

    fn locate(alloc: Global, cursor: &mut Cursor<'_>) -> Result<Self, WireFault> {
        Wire::take(alloc, cursor)
    }
}

// Reads all of the bytes.
fn locate_whole<T: Locate>(alloc: Global, bytes: &[u8]) -> Result<T, WireFault>
    ensures { Gives (λ x. x) result (whole_at T.reading bytes.now) }
{
    let mut cursor = Cursor::new(bytes);
    let message = T::locate(alloc, &mut cursor)?;
    cursor.end()?;
    Ok(message)
}

// Reads the frame of a reply whole, and gives its body.
#[tactic(auto, using(crate::proofs::Hearing::body_said, crate::proofs::Hearing::fault_said))]
fn located(alloc: Global, frame: &[u8]) -> Result<LocatedFetch, ClientFault>
    requires { IsFrame frame.now }
    ensures { IsAnswer result (said (located_in frame.now)) }
{
    match locate_whole::<(ReplyHead, LocatedFetch)>(alloc, content(frame)) {
        Ok((_, reply)) => Ok(reply),
        Err(fault) => Err(fault_of(fault)),
    }
}

// Whether the partitions of a reply can be so, where it may grant so many offsets.
#[tactic(auto, using(crate::proofs::Judging::judged))]
fn judge(alloc: Global, reply: &LocatedFetch, most: u32) -> Result<(), ClientFault>
    ensures { IsJudged reply.now most result }
{
    let mut tally = Tally {
        names: BTreeSet::new(alloc),
        left: most,
    };
    judge_topics(alloc, &mut tally, reply.responses.as_slice())
}

/// Whether the session is to start anew.
pub fn starts_anew(code: i16) -> bool
    ensures { result ≡ starts_anew code }
{
    code == SHARE_SESSION_NOT_FOUND || code == INVALID_SHARE_SESSION_EPOCH
}

/// Whether a code ends the consumer.
pub fn ends_consumer(code: i16) -> bool
    ensures { result ≡ ends_consumer code }
{
    code != 0 && !starts_anew(code)
}

/// What is heard by a frame that is the reply to a ShareFetch which allows so many offsets.
///
/// The first element that can't be is told by its place, counted from behind the frame's size: what isn't a reply; what
/// isn't a stored batch above the one before it; a partition that stands twice; acquired records that aren't in the
/// batches beside them, end before they begin, don't begin above those before them, or are too many. Partitions with an
/// error are passed over.
#[tactic(auto, using(crate::proofs::Judging::unread, crate::proofs::Judging::misjudged))]
pub fn read_fetch(alloc: Global, frame: &[u8], most: u32) -> Result<LocatedFetch, ClientFault>
    requires { IsFrame frame.now }
    ensures { HearsFetch frame.now most result }
{
    let reply = match located(alloc, frame) {
        Ok(reply) => reply,
        Err(fault) => return Err(fault),
    };
    match judge(alloc, &reply, most) {
        Ok(()) => {}
        Err(fault) => return Err(fault),
    }
    let code = reply.error_code;
    if ends_consumer(code) {
        return Err(ClientFault::Refused { code });
    }
    Ok(reply)
}
