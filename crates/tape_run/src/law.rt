// What the sessions of recordings are.
ghost use Rattle.std.specs.Prelude.{ℕ, List};
ghost use Rattle.session_script.specs.declared.event.Event.{Event};
ghost use Rattle.share_record.specs.declared.tape.LinkTape.{LinkTape};
ghost use Rattle.share_record.specs.declared.tape.ShardTape.{ShardTape};
ghost use Rattle.topic_conf.specs.Configs.{ConfigParts};
ghost use Rattle.broker_model.specs.States.{State};
ghost use Rattle.tape_merge.specs.Merges.{IsMerge};
ghost use Rattle.tape_run.specs.Recordings.{Entry, IsRecording};
ghost use Rattle.tape_run.specs.Sessions.{IsSession};

/// Where the tapes are those of a recording, the session that merges them is a run of the broker: each link has the
/// replies and the cause of its tape in it, and each shard does the calls of its history and ends as that leaves it. No
/// count of faults rises.
pub fn each_merge_is_a_session()
    ensures { (conf : ConfigParts) (first : State) (tapes : List ShardTape) (histories : List (List Entry))
        (links : List LinkTape) (events : List Event) → IsRecording conf first tapes histories links
        → IsMerge conf.topics tapes links events → IsSession conf first tapes histories links events }
{}
