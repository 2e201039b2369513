// What is told of writes that failed and that no reply tells.
ghost use Rattle.std.specs.Prelude.{◌≡◌, IfOk};
ghost use Rattle.std.specs.Option.{option_to_list};
ghost use Rattle.broker_model.specs.Shards.{fault_of_expiry, fault_of_release};
ghost use Rattle.broker_core.specs.Calls.{faults_of_visit, visit_of};

use conn_core::{Part, PartAnswer};
use session_script::Outcome;
use share_model::{ExpireAnswer, NoMemory, ShardId, Then, ThenOutcome};
use std::alloc::Global;

fn fault_at(shard: u32) -> Option<Outcome>
    ensures { result ≡ Some (Outcome.Fault (ShardId.Part shard)) }
{
    Some(Outcome::Fault {
        shard: ShardId::Part(shard),
    })
}

// The fault of what followed the acknowledgements, where it is a release that couldn't be stored.
fn fault_of_release(shard: u32, then: Then, outcome: ThenOutcome) -> Option<Outcome>
    ensures { option_to_list result ≡ fault_of_release shard «then» outcome }
{
    match then {
        Then::Release => match outcome {
            ThenOutcome::Done => None,
            ThenOutcome::Store(_) => fault_at(shard),
        },
        Then::Nothing => None,
        Then::Fetch { .. } => None,
    }
}

/// The visit that a part asks: its shard, and what follows its acknowledgements.
pub fn visit_of(part: &Part) -> Option<(u32, Then)>
    ensures { result ≡ visit_of part.now }
{
    match part {
        Part::Visit { shard, visit } => Some((*shard, visit.then)),
        _ => None,
    }
}

/// The fault of a part by its answer, if one is told: that of a visit.
pub fn fault_of_visit(visit: Option<(u32, Then)>, answer: &PartAnswer) -> Option<Outcome>
    ensures { option_to_list result ≡ faults_of_visit visit answer.now }
{
    let Some((shard, then)) = visit else {
        return None;
    };
    match answer {
        PartAnswer::Visit(answer) => fault_of_release(shard, then, answer.then),
        _ => None,
    }
}

/// The fault of an expiry, if it met one.
pub fn fault_of_expiry(shard: u32, answer: &ExpireAnswer) -> Option<Outcome>
    ensures { option_to_list result ≡ fault_of_expiry shard answer.now }
{
    match answer {
        ExpireAnswer::Done { .. } => None,
        ExpireAnswer::Store { .. } => fault_at(shard),
    }
}

/// A fault as outcomes.
pub fn told(alloc: Global, fault: Option<Outcome>) -> Result<Vec<Outcome>, NoMemory>
    ensures { IfOk result (λ outcomes. outcomes.items ≡ option_to_list fault) }
{
    let mut outcomes = Vec::new(alloc);
    if let Some(outcome) = fault {
        outcomes.push(outcome)?;
    }
    Ok(outcomes)
}
