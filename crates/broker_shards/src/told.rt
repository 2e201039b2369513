// What calls on the shard of a hosted partition tell, as a reply can say it.
ghost use Rattle.std.specs.Prelude.{◌≡◌, ◌≢◌, ◌≤◌, ◌^◌, ℕ, IfOk, OnErr};
ghost use Rattle.call_fold.specs.Parts.{HasTellableBase, IsTellableLook};
ghost use Rattle.share_model.specs.ForeignRules.{share_state_at};
ghost use Rattle.share_coord.specs.States.{states_of};
ghost use Rattle.share_part.specs.Hosting.{key_of};
ghost use Rattle.broker_model.specs.Shards.{look_at, result_of};
ghost use Rattle.broker_shards.specs.Answering.{answer_told};

use crate::part::{PartTold, PartWindow};
use call_fold::{Looked, PartAnswer, Produced};
use edge_io::Disk;
use flex_fields::Items;
use share_model::{LogFault, Name, NoMemory, Placed};
use share_part::PartShard;
use std::alloc::Global;

/// What is told of a batch that was added or refused.
pub fn produced(added: Result<Placed, LogFault>) -> Result<Produced, NoMemory>
    requires not_behind { (end : ℕ) → added ≢ Err (LogFault.Behind end) }
    requires below { IfOk added (λ placed. (placed.base ≤ 2 ^ 62) × (placed.start ≤ 2 ^ 62)) }
    ensures ok { IfOk result (λ produced. result_of produced ≡ added) }
    ensures tellable { IfOk result HasTellableBase }
    ensures memory { OnErr result (added ≡ Err LogFault.NoMemory) }
{
    match added {
        Ok(placed) => Ok(Produced::Base(placed)),
        Err(LogFault::Batch(fault)) => Ok(Produced::Batch(fault)),
        Err(LogFault::Store(fault)) => Ok(Produced::Store(fault)),
        Err(LogFault::NoMemory) => Err(NoMemory),
        Err(LogFault::Behind { .. }) => unreachable!(),
    }
}

/// What is stored of a group on a partition.
pub fn looked<D: Disk>(
    alloc: Global,
    group: &Name,
    part: &PartShard<D, PartWindow>,
) -> Result<Looked, NoMemory>
    ensures ok { IfOk result (λ looked. looked ≡ look_at (share_state_at (states_of part.now.states.entries) (key_of part.now.conf group.now))) }
    ensures tellable { IfOk result IsTellableLook }
{
    let Some(view) = part.look_state(group) else {
        return Ok(Looked::Absent);
    };
    view.known();
    let runs = view.runs.list().to_vec(alloc)?;
    Ok(Looked::There {
        state_epoch: view.state_epoch,
        leader_epoch: view.leader_epoch,
        start: view.start,
        runs: Items::new(runs),
    })
}

/// What a partition told, as the answer to a part. No part asks for an offer or an expiry.
pub fn answer_of(told: PartTold) -> Option<PartAnswer>
    ensures { result ≡ answer_told told }
{
    match told {
        PartTold::Visit(answer) => Some(PartAnswer::Visit(answer)),
        PartTold::Produce(produced) => Some(PartAnswer::Produce(produced)),
        PartTold::Delete(answer) => Some(PartAnswer::Delete(answer)),
        PartTold::Look(looked) => Some(PartAnswer::Look(looked)),
        PartTold::Offer(_) => None,
        PartTold::Expire(_) => None,
    }
}
