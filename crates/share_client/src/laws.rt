ghost use Rattle.std.specs.Prelude.{◌≡◌, ℕ, Option};
ghost use Rattle.flex_fields.specs.Reading.{At, as_at};
ghost use Rattle.msgs_share.specs.ShareFetchReply.{share_fetch_reply};
ghost use Rattle.share_client.specs.declared.client.ClientCore.{ClientCore};
ghost use Rattle.share_client.specs.declared.conf.ClientConf.{ClientConf};
ghost use Rattle.share_client.specs.declared.fetched.LocatedFetch.{LocatedFetch};
ghost use Rattle.share_client.specs.Cores.{StandsFor};
ghost use Rattle.share_client.specs.Fetches.{Tells};
ghost use Rattle.share_client.specs.Locating.{bare_fetch, located_fetch_at};
ghost use Rattle.share_client.specs.Promises.{AcknowledgesOnce, AcknowledgesWhatStands, GrantOnce, IsBounded, StandsInSession, WritesFirst, WritesWhatWasHanded, WritesWhatWasTaken};
ghost use Rattle.share_client.specs.Rules.{AreAllowed};
ghost use Rattle.share_client.specs.Traces.{Trace};

/// Without its places, what is read of a reply to ShareFetch is what the reader of the message reads.
pub fn places_change_nothing()
    ensures { (at : At) → as_at bare_fetch located_fetch_at at ≡ share_fetch_reply.read at }
{}

/// The partitions of a reply say one thing: that they can be so, or the place of the first element that can't be.
pub fn a_reply_tells_one_thing()
    ensures { (reply : LocatedFetch) (most : ℕ) (one other : Option ℕ) → Tells reply most one → Tells reply most other → one ≡ other }
{}

/// Every answer of a consumer is one that the rules allow on the trace before it.
pub fn every_answer_is_allowed()
    ensures { (conf : ClientConf) (core : ClientCore) (trace : Trace) → StandsFor conf core trace → AreAllowed conf trace }
{}

/// The next request acknowledges every grant of the reply that stands, and no other.
pub fn a_request_acknowledges_what_stands()
    ensures { (conf : ClientConf) (core : ClientCore) (trace : Trace) → StandsFor conf core trace → AcknowledgesWhatStands conf trace }
{}

/// The grants of each reply are acknowledged once at most.
pub fn a_reply_is_acknowledged_once()
    ensures { (conf : ClientConf) (core : ClientCore) (trace : Trace) → StandsFor conf core trace → AcknowledgesOnce conf trace }
{}

/// A granted offset stands in one batch of a request at most.
pub fn a_request_acknowledges_each_offset_once()
    ensures { (conf : ClientConf) (core : ClientCore) (trace : Trace) → StandsFor conf core trace → GrantOnce conf trace }
{}

/// What a request acknowledges was granted in the session that stands: a loss of the link or a new session drops it.
pub fn grants_stand_in_their_session()
    ensures { (conf : ClientConf) (core : ClientCore) (trace : Trace) → StandsFor conf core trace → StandsInSession conf trace }
{}

/// The lines to write are those of the last taken reply with grants, until they are written.
pub fn lines_are_those_of_the_reply()
    ensures { (conf : ClientConf) (core : ClientCore) (trace : Trace) → StandsFor conf core trace → WritesWhatWasTaken conf trace }
{}

/// No request is sent while lines are to be written: what it acknowledges as accepted was written.
pub fn lines_are_written_before_a_request()
    ensures { (conf : ClientConf) (core : ClientCore) (trace : Trace) → StandsFor conf core trace → WritesFirst conf trace }
{}

/// No more lines are handed out than records were asked for.
pub fn lines_are_bounded()
    ensures { (conf : ClientConf) (core : ClientCore) (trace : Trace) → StandsFor conf core trace → IsBounded conf trace }
{}

/// Lines are taken as written only where they were handed out, all of them.
pub fn written_lines_were_handed_out()
    ensures { (conf : ClientConf) (core : ClientCore) (trace : Trace) → StandsFor conf core trace → WritesWhatWasHanded conf trace }
{}
