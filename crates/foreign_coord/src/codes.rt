// The answers of the calls.
ghost use Rattle.std.specs.Prelude.{◌≡◌, [], IfOk};
ghost use Rattle.share_model.specs.ForeignRules.{code_alone};
ghost use Rattle.foreign_coord.specs.Codes.{Tells, TellsFault};

use flex_fields::Items;
use share_coord::CoordFault;
use share_model::{Code, ForeignAnswer, NoMemory};
use std::alloc::Global;

// An answer that tells nothing but its code. It takes no memory.
pub fn alone(alloc: Global, code: Code) -> ForeignAnswer
    ensures { result ≡ code_alone code }
{
    ForeignAnswer {
        code,
        state_epoch: 0,
        start: -1,
        runs: Items::new(Vec::new(alloc)),
    }
}

// The answer to a call that the store has refused.
pub fn refusal(alloc: Global, fault: CoordFault) -> Result<ForeignAnswer, NoMemory>
    ensures tells { TellsFault fault result }
    ensures runs { IfOk result (λ answer. answer.runs ≡ []) }
{
    match fault {
        CoordFault::Invalid => Ok(alone(alloc, Code::INVALID_REQUEST)),
        CoordFault::Unknown => Ok(alone(alloc, Code::UNKNOWN_TOPIC_OR_PARTITION)),
        CoordFault::FencedLeader { .. } => Ok(alone(alloc, Code::FENCED_LEADER_EPOCH)),
        CoordFault::FencedState { .. } => Ok(alone(alloc, Code::FENCED_STATE_EPOCH)),
        CoordFault::TooMany { .. } => Ok(alone(alloc, Code::INVALID_REQUEST)),
        CoordFault::Store(_) => Ok(alone(alloc, Code::KAFKA_STORAGE_ERROR)),
        CoordFault::NoMemory => Err(NoMemory),
    }
}

// The answer to a call that the store has done or refused.
pub fn answer(alloc: Global, done: Result<(), CoordFault>) -> Result<ForeignAnswer, NoMemory>
    ensures tells { Tells done result }
    ensures runs { IfOk result (λ answer. answer.runs ≡ []) }
{
    match done {
        Ok(()) => Ok(alone(alloc, Code::NONE)),
        Err(fault) => refusal(alloc, fault),
    }
}
