// What merges keep.
ghost use Rattle.std.specs.Prelude.{ℕ, List};
ghost use Rattle.session_script.specs.declared.event.Event.{Event};
ghost use Rattle.topic_conf.specs.declared.topic.Topic.{Topic};
ghost use Rattle.share_record.specs.declared.tape.LinkTape.{LinkTape};
ghost use Rattle.share_record.specs.declared.tape.ShardTape.{ShardTape};
ghost use Rattle.tape_merge.specs.declared.place.Place.{Place};
ghost use Rattle.tape_merge.specs.Matching.{IsLeastOfCycle};
ghost use Rattle.tape_merge.specs.Merges.{IsMerge, KeepsOrders};

/// Where links and tapes have a cycle, no session merges them.
pub fn no_merge_has_a_cycle()
    ensures { (topics : List Topic) (tapes : List ShardTape) (links : List LinkTape) (events : List Event)
        → IsMerge topics tapes links events → (place : Place) → IsLeastOfCycle tapes links place → ⊥ }
{}

/// A session that merges links and tapes does each step of each link once, in the link's order, and takes each tape
/// whole, in its order: each tag of a step together with that step.
pub fn each_merge_keeps_the_orders()
    ensures { (topics : List Topic) (tapes : List ShardTape) (links : List LinkTape) (events : List Event)
        → (merge : IsMerge topics tapes links events) → KeepsOrders tapes links merge.moves }
{}
