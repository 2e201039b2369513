// The data link: fetches, acknowledgements and their replies.
ghost use Rattle.std.specs.Prelude.{◌≡◌, ◌≤◌, ◌++◌, [], ℕ, List, length, take, pos, true, false, is_some, Some, IfOk, OnOk, OnErr};
ghost use Rattle.msgs_share.specs.ShareAckRequest.{share_ack_request};
ghost use Rattle.msgs_share.specs.ShareFetchRequest.{share_fetch_request};
ghost use Rattle.req_head.specs.Heads.{request_head};
ghost use Rattle.share_session.specs.Sessions.{next_epoch};
ghost use Rattle.share_client.specs.DataLinks.{TakesData, TakesFetch, acknowledged, behind_fetch, behind_fetched, behind_last, behind_loss, behind_request, behind_written, data_awaits, data_frame, data_head, fetch_frame, fetch_request, fetched_after, granted_lines, heard_last, is_served, last_after, last_frame, lines_text, most_records, new_data, sends, session_epoch, session_topics, taken_last, with_acknowledged, with_topics};
ghost use Rattle.std.specs.Option.{unwrap_or};
ghost use Rattle.share_client.specs.declared.fetched.LocatedFetch.{LocatedFetch};
ghost use Rattle.share_client.specs.Deliveries.{Delivery, acknowledgements, deliveries, lines};
ghost use Rattle.share_client.specs.Fetches.{starts_anew};
ghost use Rattle.share_client.specs.Frames.{IsAnswer, IsFrame, framed};
ghost use Rattle.share_client.specs.Partitions.{topics_in};

use crate::conf::ClientConf;
use crate::fault::ClientFault;
use crate::fetch_reply::{ends_consumer, read_fetch, starts_anew};
use crate::fetched::LocatedFetch;
use crate::frame::{has_correlation, read_reply, request_frame};
use crate::grants::{Handout, read_grants};
use crate::items::items_of;
use crate::page::Page;
use crate::partitions::{copied, forgotten_topics, fresh_topics, outside};
use crate::step::Took;
use flex_fields::{Items, Text};
use msgs_group::{AssignedTopic, Assignment};
use msgs_share::{ShareAckReply, ShareAckRequest, ShareFetchRequest, SharePartition, ShareTopic};
use req_head::RequestHead;
use share_model::{Blob, Name, NoMemory};
use share_session::next_epoch;
use std::alloc::Global;
use std::mem;

const FETCH_KEY: i16 = 78;

const ACKNOWLEDGE_KEY: i16 = 79;

const VERSION: i16 = 1;

/// How long a fetch may wait, in milliseconds.
const MAX_WAIT: i32 = 500;

const MIN_BYTES: i32 = 1;

const MAX_BYTES: i32 = 1048576;

const MAX_RECORDS: u32 = 500;

const BATCH_SIZE: i32 = 500;

/// The most items of a list of a message.
const MOST_ITEMS: usize = 4294967294;

/// What a request on the data link is.
#[derive(Clone, Copy, Debug)]
pub enum DataAsk {
    /// A fetch, which allows so many offsets.
    Fetching { most: u32 },
    /// The last acknowledgement.
    Leaving,
}

/// A share session that stands: the epoch of its last request, and its partitions.
#[derive(Drop)]
pub struct OpenSession {
    pub epoch: i32,
    pub told: Items<AssignedTopic>,
}

/// Lines that are to be written, and how many they are.
#[derive(Drop)]
pub struct Lines {
    pub text: Blob,
    pub count: u32,
}

/// The data link of a consumer.
#[derive(Drop)]
pub struct DataLink {
    /// The correlation id of the last request, 0 before the first.
    pub number: i32,
    /// The request that awaits its reply, if one does.
    pub asked: Option<DataAsk>,
    /// The session. `None` where the next request begins one.
    pub session: Option<OpenSession>,
    /// How many records are still wanted.
    pub wanted: u32,
    /// What is to be written, where the last reply has grants that aren't written yet.
    pub lines: Option<Lines>,
    /// What the next request acknowledges.
    pub topics: Option<Items<ShareTopic<SharePartition>>>,
    /// Whether the last request was sent.
    pub closed: bool,
    /// Whether its reply was taken.
    pub left: bool,
    /// Whether the link was lost behind the last reply to a fetch and before that of the last request.
    pub cut: bool,
}

fn text_of(alloc: Global, name: &Name) -> Result<Option<Text>, NoMemory>
    ensures { IfOk result (λ text. text ≡ Some name.now) }
{
    Ok(Some(Text::new(alloc, name.as_str())?))
}

fn head_of(key: i16, number: i32) -> RequestHead
    ensures { result ≡ data_head key number }
{
    RequestHead {
        key,
        version: VERSION,
        correlation: number,
        client: None,
    }
}

fn empty<T: Drop>(alloc: Global) -> Items<T>
    ensures { result ≡ [] }
{
    Items::new(Vec::new(alloc))
}

// Both lists in one, and whether there is memory for that. Else it is the first one.
fn joined<T: Drop>(first: Items<T>, second: Items<T>) -> (Items<T>, bool)
    ensures yes { result.1 ≡ true → result.0 ≡ first ++ second }
    ensures no { result.1 ≡ false → result.0 ≡ first }
{
    let mut all = first.into_vec();
    let mut more = second.into_vec();
    if all.len() + more.len() > MOST_ITEMS {
        return (Items::new(all), false);
    }
    let fits = all.append(&mut more).is_ok();
    (Items::new(all), fits)
}

// The first items of a list.
fn front<T: Drop>(list: Items<T>, count: usize) -> Items<T>
    ensures { result ≡ take count list }
{
    let mut list = list.into_vec();
    list.truncate(count);
    Items::new(list)
}

// The frame of a fetch whose topics stand behind these ones, which are handed back.
fn framed_behind(
    alloc: Global,
    number: i32,
    request: ShareFetchRequest,
    topics: Items<ShareTopic<SharePartition>>,
) -> (Result<Blob, NoMemory>, Items<ShareTopic<SharePartition>>)
    ensures frame { IfOk result.0 (λ frame. frame ≡ framed (request_head.bytes (data_head (pos 78) number)
        ++ share_fetch_request.bytes (with_topics (topics ++ request.topics) request))) }
    ensures topics { result.1 ≡ topics }
{
    let count = topics.as_slice().len();
    let mut request = request;
    let fresh = mem::replace(&mut request.topics, empty(alloc));
    let (all, fits) = joined(topics, fresh);
    request.topics = all;
    let framed = if fits {
        request_frame(alloc, &head_of(FETCH_KEY, number), &request)
    } else {
        Err(NoMemory)
    };
    (framed, front(request.topics, count))
}

// The same, where there may be no topics before those of the request.
fn framed_fetch(
    alloc: Global,
    number: i32,
    request: ShareFetchRequest,
    topics: Option<Items<ShareTopic<SharePartition>>>,
) -> (
    Result<Blob, NoMemory>,
    Option<Items<ShareTopic<SharePartition>>>,
)
    ensures frame { IfOk result.0 (λ frame. frame ≡ framed (request_head.bytes (data_head (pos 78) number)
        ++ share_fetch_request.bytes (with_topics (unwrap_or topics [] ++ request.topics) request))) }
    ensures topics { result.1 ≡ topics }
{
    match topics {
        None => (
            request_frame(alloc, &head_of(FETCH_KEY, number), &request),
            None,
        ),
        Some(topics) => {
            let (framed, topics) = framed_behind(alloc, number, request, topics);
            (framed, Some(topics))
        }
    }
}

// The frame of the last request, whose topics are handed back.
fn framed_last(
    alloc: Global,
    number: i32,
    request: ShareAckRequest,
    topics: Option<Items<ShareTopic<SharePartition>>>,
) -> (
    Result<Blob, NoMemory>,
    Option<Items<ShareTopic<SharePartition>>>,
)
    requires { request.topics ≡ [] }
    ensures frame { IfOk result.0 (λ frame. frame ≡ framed (request_head.bytes (data_head (pos 79) number)
        ++ share_ack_request.bytes (with_acknowledged (unwrap_or topics []) request))) }
    ensures topics { result.1 ≡ topics }
{
    match topics {
        None => (
            request_frame(alloc, &head_of(ACKNOWLEDGE_KEY, number), &request),
            None,
        ),
        Some(topics) => {
            let mut request = request;
            request.topics = topics;
            let framed = request_frame(alloc, &head_of(ACKNOWLEDGE_KEY, number), &request);
            (framed, Some(request.topics))
        }
    }
}

// What the reply to the last request says, unless it is a refusal.
#[tactic(auto, using(crate::proofs::Dealing::hears_fault, crate::proofs::Dealing::hears_code))]
fn hear_last(alloc: Global, frame: &[u8]) -> Result<ShareAckReply, ClientFault>
    requires { IsFrame frame.now }
    ensures { IsAnswer result (heard_last frame.now) }
{
    let reply: ShareAckReply = match read_reply(alloc, frame) {
        Ok(reply) => reply,
        Err(fault) => return Err(fault),
    };
    let code = reply.error_code;
    if ends_consumer(code) {
        return Err(ClientFault::Refused { code });
    }
    Ok(reply)
}

// The lines of a reply, where it has grants.
fn lines_of(topics: &[ShareTopic<SharePartition>], page: Page) -> Option<Lines>
    ensures { (ds : List Delivery) → page.text ≡ lines ds → page.count ≡ length ds → result ≡ granted_lines topics.now ds }
{
    if topics.is_empty() {
        return None;
    }
    Some(Lines {
        text: Blob::new(page.text.into_bytes().into_vec()),
        count: page.count,
    })
}

fn topics_in(assigned: &Option<Assignment>) -> &[AssignedTopic]
    ensures { result.now ≡ topics_in assigned.now }
{
    match assigned {
        Some(assignment) => assignment.topic_partitions.as_slice(),
        None => &[],
    }
}

impl DataLink {
    /// A link on which nothing was sent, where so many records are wanted. It takes no memory.
    pub fn new(count: u32) -> DataLink
        ensures { result ≡ new_data count }
    {
        DataLink {
            number: 0,
            asked: None,
            session: None,
            wanted: count,
            lines: None,
            topics: None,
            closed: false,
            left: false,
            cut: false,
        }
    }

    // Whether all records are written.
    fn is_served(&self) -> bool
        ensures { result ≡ is_served self.now }
    {
        self.wanted == 0
    }

    /// Whether a request is to be sent.
    pub fn sends(&self, assigned: &Option<Assignment>) -> bool
        ensures { result ≡ sends self.now assigned.now }
    {
        if self.asked.is_some() || self.closed {
            return false;
        }
        if self.is_served() {
            self.session.is_some()
        } else {
            assigned.is_some()
        }
    }

    fn session_epoch(&self) -> i32
        ensures { result ≡ session_epoch self.now }
    {
        match &self.session {
            Some(session) => next_epoch(session.epoch),
            None => 0,
        }
    }

    fn session_topics(&self) -> &[AssignedTopic]
        ensures { result.now ≡ session_topics self.now }
    {
        match &self.session {
            Some(session) => session.told.as_slice(),
            None => &[],
        }
    }

    fn most_records(&self) -> u32
        ensures is { result ≡ most_records self.now }
        ensures few { result ≤ 500 }
    {
        if self.wanted < MAX_RECORDS {
            self.wanted
        } else {
            MAX_RECORDS
        }
    }

    // The next fetch without what it acknowledges.
    fn fetch_request(
        &self,
        alloc: Global,
        conf: &ClientConf,
        assigned: &[AssignedTopic],
    ) -> Result<ShareFetchRequest, NoMemory>
        ensures { IfOk result (λ request. with_topics (acknowledged self.now ++ request.topics) request ≡ fetch_request conf.now self.now assigned.now) }
    {
        let gained = outside(alloc, assigned, self.session_topics())?;
        let forgotten = outside(alloc, self.session_topics(), assigned)?;
        Ok(ShareFetchRequest {
            group_id: text_of(alloc, &conf.group)?,
            member_id: text_of(alloc, &conf.member)?,
            share_session_epoch: self.session_epoch(),
            max_wait_ms: MAX_WAIT,
            min_bytes: MIN_BYTES,
            max_bytes: MAX_BYTES,
            max_records: self.most_records() as i32,
            batch_size: BATCH_SIZE,
            topics: items_of(fresh_topics(alloc, &gained)?)?,
            forgotten_topics_data: forgotten_topics(alloc, &forgotten)?,
        })
    }

    // Makes the next fetch.
    fn ask_fetch(
        &mut self,
        alloc: Global,
        conf: &ClientConf,
        assigned: &[AssignedTopic],
    ) -> Result<Blob, NoMemory>
        ensures frame { IfOk result (λ frame. frame ≡ fetch_frame conf.now self.old assigned.now) }
        ensures ok { OnOk result (self.new ≡ behind_fetch self.old assigned.now) }
        ensures err { OnErr result (self.new ≡ self.old) }
    {
        let told = copied(alloc, assigned)?;
        let request = self.fetch_request(alloc, conf, assigned)?;
        let epoch = self.session_epoch();
        let most = self.most_records();
        let number = next_epoch(self.number);
        let topics = self.topics.take();
        let (framed, topics) = framed_fetch(alloc, number, request, topics);
        match framed {
            Ok(frame) => {
                self.number = number;
                self.asked = Some(DataAsk::Fetching { most });
                self.session = Some(OpenSession { epoch, told });
                Ok(frame)
            }
            Err(fault) => {
                self.topics = topics;
                Err(fault)
            }
        }
    }

    // Makes the last request.
    fn ask_last(&mut self, alloc: Global, conf: &ClientConf) -> Result<Blob, NoMemory>
        ensures frame { IfOk result (λ frame. frame ≡ last_frame conf.now self.old) }
        ensures ok { OnOk result (self.new ≡ behind_last self.old) }
        ensures err { OnErr result (self.new ≡ self.old) }
    {
        let group_id = text_of(alloc, &conf.group)?;
        let member_id = text_of(alloc, &conf.member)?;
        let number = next_epoch(self.number);
        let request = ShareAckRequest {
            group_id,
            member_id,
            share_session_epoch: -1,
            topics: empty(alloc),
        };
        let (framed, topics) = framed_last(alloc, number, request, self.topics.take());
        match framed {
            Ok(frame) => {
                self.number = number;
                self.asked = Some(DataAsk::Leaving);
                self.closed = true;
                Ok(frame)
            }
            Err(fault) => {
                self.topics = topics;
                Err(fault)
            }
        }
    }

    /// Makes the next request. Where there is no memory for it, nothing changes.
    pub fn ask(
        &mut self,
        alloc: Global,
        conf: &ClientConf,
        assigned: &Option<Assignment>,
    ) -> Result<Blob, NoMemory>
        ensures frame { IfOk result (λ frame. frame ≡ data_frame conf.now self.old assigned.now) }
        ensures ok { OnOk result (self.new ≡ behind_request self.old assigned.now) }
        ensures err { OnErr result (self.new ≡ self.old) }
    {
        if self.is_served() {
            self.ask_last(alloc, conf)
        } else {
            self.ask_fetch(alloc, conf, topics_in(assigned))
        }
    }

    /// Whether lines are to be written.
    pub fn writes(&self) -> bool
        ensures { result ≡ is_some self.now.lines }
    {
        self.lines.is_some()
    }

    /// The lines that are to be written, none where there are none.
    pub fn text(&self, alloc: Global) -> Result<Blob, NoMemory>
        ensures { IfOk result (λ text. text ≡ lines_text self.now.lines) }
    {
        match &self.lines {
            Some(lines) => Ok(Blob::new(Vec::from_slice(alloc, lines.text.as_slice())?)),
            None => Ok(Blob::new(Vec::new(alloc))),
        }
    }

    // Keeps what a fetch's reply hands out.
    fn keep(&mut self, anew: bool, handout: Handout) -> Result<(), NoMemory>
        ensures ok { OnOk result ((reply : LocatedFetch) → anew ≡ starts_anew reply.error_code → handout.page.text ≡ lines (deliveries reply)
            → handout.page.count ≡ length (deliveries reply) → handout.topics.items ≡ acknowledgements reply → self.new ≡ behind_fetched self.old reply) }
        ensures err { OnErr result (self.new ≡ self.old) }
    {
        let Handout { page, topics } = handout;
        let topics = items_of(topics)?;
        self.lines = lines_of(topics.as_slice(), page);
        self.asked = None;
        self.cut = false;
        if anew {
            self.session = None;
            self.topics = None;
        } else {
            self.topics = Some(topics);
        }
        Ok(())
    }

    // Takes the reply to a fetch.
    fn take_fetch(&mut self, alloc: Global, most: u32, frame: &[u8]) -> Result<Took, ClientFault>
        requires { IsFrame frame.now }
        ensures told { TakesFetch frame.now most result }
        ensures becomes { self.new ≡ fetched_after self.old frame.now result }
    {
        let reply = match read_fetch(alloc, frame, most) {
            Ok(reply) => reply,
            Err(fault) => return Err(fault),
        };
        let Ok(handout) = read_grants(alloc, &reply) else {
            return Err(ClientFault::NoMemory);
        };
        match self.keep(starts_anew(reply.error_code), handout) {
            Ok(()) => Ok(Took::Taken),
            Err(NoMemory) => Err(ClientFault::NoMemory),
        }
    }

    // Takes the reply to the last request.
    fn take_last(&mut self, alloc: Global, frame: &[u8]) -> Result<Took, ClientFault>
        requires { IsFrame frame.now }
        ensures told { IsAnswer result (taken_last (heard_last frame.now)) }
        ensures becomes { self.new ≡ last_after self.old frame.now result }
    {
        let reply = match hear_last(alloc, frame) {
            Ok(reply) => reply,
            Err(fault) => return Err(fault),
        };
        self.asked = None;
        self.left = true;
        self.cut = false;
        if starts_anew(reply.error_code) {
            self.session = None;
        }
        Ok(Took::Taken)
    }

    // Whether a frame is the awaited reply.
    fn is_awaited(&self, frame: &[u8]) -> bool
        requires { IsFrame frame.now }
        ensures { result ≡ data_awaits frame.now self.now }
    {
        self.asked.is_some() && has_correlation(frame, self.number)
    }

    /// Takes a frame that came on the link.
    pub fn take(&mut self, alloc: Global, frame: &[u8]) -> Result<Took, ClientFault>
        requires { IsFrame frame.now }
        ensures { TakesData frame.now self.old result self.new }
    {
        if !self.is_awaited(frame) {
            return Ok(Took::Stray);
        }
        match self.asked {
            None => Ok(Took::Stray),
            Some(DataAsk::Fetching { most }) => self.take_fetch(alloc, most, frame),
            Some(DataAsk::Leaving) => self.take_last(alloc, frame),
        }
    }

    /// The link ended: what stands is dropped, and what is to be written stays.
    pub fn lose(&mut self)
        ensures { self.new ≡ behind_loss self.old }
    {
        self.asked = None;
        self.session = None;
        self.topics = None;
        self.cut = !self.left;
    }

    /// The lines are written.
    pub fn wrote(&mut self)
        ensures { self.new ≡ behind_written self.old }
    {
        let count = match &self.lines {
            Some(lines) => lines.count,
            None => 0,
        };
        self.wanted = self.wanted.saturating_sub(count);
        self.lines = None;
    }
}
