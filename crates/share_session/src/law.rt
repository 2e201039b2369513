// Laws of share sessions and of their visits.
ghost use Rattle.std.specs.Prelude.{ℕ, ℤ, List, map, nat_eq, IsPermutation};
ghost use Rattle.std.specs.List.{IsDistinct};
ghost use Rattle.share_model.specs.declared.ack.AckBatch.{AckBatch};
ghost use Rattle.share_session.specs.declared.step.Caller.{Caller};
ghost use Rattle.share_session.specs.declared.change.SessionChange.{SessionChange};
ghost use Rattle.share_session.specs.declared.session.Session.{Session};
ghost use Rattle.share_session.specs.Sessions.{is_same_member, applied};
ghost use Rattle.share_session.specs.Requests.{joined};
ghost use Rattle.share_session.specs.Plans.{shard_of, fetch_visits};

/// No member gets a second session on a connection.
pub fn a_member_has_one_session()
    ensures { (change : SessionChange) (sessions : List Session) →
        IsDistinct is_same_member sessions → IsDistinct is_same_member (applied change sessions) }
{}

/// No partition gets a second place in a list.
pub fn a_partition_joins_once()
    ensures { (list shards : List ℕ) → IsDistinct nat_eq list → IsDistinct nat_eq (joined list shards) }
{}

/// A fetch visits each partition of the list once, wherever its round begins.
pub fn each_partition_is_visited_once()
    ensures { (caller : Caller) (epoch : ℤ) (wanted : List (ℕ × List AckBatch)) (forgotten list : List ℕ) →
        IsPermutation list (map shard_of (fetch_visits caller epoch wanted forgotten list)) }
{}
