// A share consumer that stands for the trace of its calls, so that its lines may be said to be written.
ghost use Rattle.std.specs.Prelude.{◌≡◌, ◌≤◌, ◌^◌, ◌∷◌, ℕ};
ghost use Rattle.share_client.specs.Frames.{IsFrame};
ghost use Rattle.share_client.specs.Traces.{Trace, is_writing};
ghost use Rattle.share_client.specs.Traces.Call.{Asked};

use share_client::{ClientConf, ClientCore, ClientFault, ClientStep, LinkKind, Took};
use share_model::NoMemory;
use std::alloc::Global;
use std::marker::Model;

#[derive(Drop)]
pub struct Standing {
    core: ClientCore,
    /// Whether lines were handed out that aren't yet said to be written.
    writing: bool,
}

impl Model for Standing {
    ghost use Rattle.std.specs.Prelude.{◌≡◌};
    ghost use Rattle.share_client.specs.declared.client.ClientCore.{ClientCore};
    ghost use Rattle.share_client.specs.declared.conf.ClientConf.{ClientConf};
    ghost use Rattle.share_client.specs.Cores.{StandsFor};
    ghost use Rattle.share_client.specs.Traces.{Trace, is_writing};

    ghost Value = { ClientCore };

    ghost view = { λ s. s.core };

    ghost invariant = { λ s. (conf : ClientConf) × (trace : Trace) × StandsFor conf s.core trace × (is_writing trace ≡ s.writing) };
}

// Whether lines are to be written behind an answer.
fn writes(step: &Result<ClientStep, NoMemory>, writing: bool) -> bool
    ensures { (now : ℕ) (trace : Trace) → is_writing trace ≡ writing → is_writing (Asked now step.now ∷ trace) ≡ result }
{
    match step {
        Ok(ClientStep::Heartbeat(_)) => writing,
        Ok(ClientStep::Fetch(_)) => writing,
        Ok(ClientStep::Write(_)) => true,
        Ok(ClientStep::Wait { .. }) => writing,
        Ok(ClientStep::Done) => writing,
        Err(_) => writing,
    }
}

impl Standing {
    pub fn new(conf: ClientConf) -> Standing {
        Standing {
            core: ClientCore::new(conf),
            writing: false,
        }
    }

    pub fn next(&mut self, alloc: Global, now: u64) -> Result<ClientStep, NoMemory>
        requires { now ≤ 2 ^ 62 }
    {
        let step = self.core.next(alloc, now);
        self.writing = writes(&step, self.writing);
        step
    }

    pub fn reply(&mut self, alloc: Global, on: LinkKind, frame: &[u8]) -> Result<Took, ClientFault>
        requires { IsFrame frame.now }
    {
        self.core.reply(alloc, on, frame)
    }

    pub fn lost(&mut self, on: LinkKind) {
        self.core.lost(on);
    }

    /// Says that the lines are written, unless none are to be. Whether it did.
    pub fn wrote(&mut self) -> bool {
        if !self.writing {
            return false;
        }
        self.core.wrote();
        self.writing = false;
        true
    }

    pub fn unacknowledged(&self) -> bool {
        self.core.unacknowledged()
    }
}
