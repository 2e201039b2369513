ghost use Rattle.std.specs.Prelude.{◌≡◌, ◌≤◌, ◌^◌, [], ◌∷◌, List, Bool, ℕ, IfSome};
ghost use Rattle.std.specs.declared.option.Option.{Option};
ghost use Rattle.edge_io.specs.Causes.{HasCause};
ghost use Rattle.edge_io.specs.Serving.{Gives, TellsMore};

use crate::link::Link;
use crate::streams::Failed;

/// Where moments come from, in milliseconds.
pub trait Clock: Sized {
    /// The answers that it gave, where it tells them. A clock may stop telling them, and then never does again.
    ghost told: { Self → Option (List ℕ) };

    /// The moment. It may be earlier than the one before.
    fn now_ms(&mut self) -> u64
        ensures bound { result ≤ 2 ^ 62 }
        ensures told { TellsMore (told self.old) (told self.new) (result ∷ []) };

    /// A clock of the same kind that has given no answer. It takes no memory.
    fn another(&self) -> Self
        ensures { IfSome (told result) (λ answers. answers ≡ []) };

    /// May wait so long. Nothing is promised of it.
    fn pause(&mut self, ms: u32)
        ensures { told self.new ≡ told self.old };
}

/// Where links come from.
pub trait Listener {
    type L: Link;

    /// How many links it gave. The count stays at `u64::MAX` once it is there.
    ghost given: { Self → ℕ };

    /// Whether it has answered that no more links come.
    ghost done: { Self → Bool };

    /// How many faults there were. The count stays at `u64::MAX` once it is there.
    ghost faults: { Self → ℕ };

    /// The next link. `None` means that no more links come. It may wait until one does.
    fn next(&mut self) -> Result<Option<Self::L>, Failed>
        ensures gives { Gives (given self.old) (given self.new) (done self.old) (done self.new) result }
        ensures cause { HasCause (faults self.old) (faults self.new) result };
}

/// Where a worker is. Links are numbered from 0, in the order in which they were given.
#[derive(Clone, Copy)]
pub enum GatePlace {
    /// A part of this link is done next.
    Part { link: u32 },
    /// A reply was written to this link.
    Replied { link: u32 },
}

/// What a worker passes by, before each part and after each reply. A test may hold a worker there; nothing that a
/// broker keeps changes by it.
pub trait Gate {
    fn at(&self, place: GatePlace);
}

/// The gate of a program, which holds nobody.
#[derive(Clone, Copy)]
pub struct NoGate;

impl Gate for NoGate {
    fn at(&self, _place: GatePlace) {}
}
