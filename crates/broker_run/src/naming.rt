// Passes that are handed to jobs and come back, and the locks beside them. Both know by their types of which locks
// they are.
ghost use Rattle.std.specs.Prelude.{◌≡◌, IfOk};
ghost use Rattle.std.specs.Arc.{arc_value};
ghost use Rattle.broker_run.specs.Homes.{IsHome, IsNamed};

use broker_locks::{Passes, Shared};
use edge_io::{Clock, Disk, Link};
use std::alloc::{AllocError, Global};
use std::marker::{Brand, Model, PhantomData};
use std::sync::Arc;

/// Names the locks of one server. Each server picks it.
pub trait Naming<D> {
    ghost use Rattle.std.specs.Prelude.{Option};
    ghost use Rattle.broker_locks.specs.Shared.{SharedParts};

    ghost shared: { Option (SharedParts D) };
}

impl<D> Naming<D> for Brand {
    ghost use Rattle.std.specs.Prelude.{None};

    ghost shared = { None };
}

/// Passes of the server's locks, each of which stands for itself alone. All that was done through them are served
/// links of the one type, and turns of expiries by clocks of the other.
#[derive(Drop)]
pub struct Handed<K: Link, C: Clock, D: Disk, B: Naming<D>> {
    passes: Passes<D>,
    of: PhantomData<(K, C, B)>,
}

impl<K: Link, C: Clock, D: Disk, B: Naming<D>> Model for Handed<K, C, D, B> {
    ghost use Rattle.broker_locks.specs.Shared.{PassesParts};
    ghost use Rattle.broker_run.specs.Homes.{IsHome};

    ghost Value = { PassesParts D };

    ghost view = { λ h. h.passes };

    ghost invariant = { λ h. IsHome D.seen K.left K.held C.told B.shared h.passes };
}

impl<K: Link, C: Clock, D: Disk, B: Naming<D>> Handed<K, C, D, B> {
    pub fn new(passes: Passes<D>) -> Handed<K, C, D, B>
        requires { IsHome D.seen K.left K.held C.told B.shared passes }
        ensures { result ≡ passes }
    {
        Handed {
            passes,
            of: PhantomData,
        }
    }

    pub fn into_passes(self) -> Passes<D>
        ensures home { IsHome D.seen K.left K.held C.told B.shared result }
        ensures is { result ≡ self }
    {
        let Handed { passes, of: _ } = self;
        passes
    }
}

/// The locks of the server, which its jobs share.
#[derive(Drop)]
pub struct Named<D: Disk, B: Naming<D>> {
    shared: Arc<Shared<D>, Global>,
    of: PhantomData<B>,
    ghost is: { IsNamed B.shared (arc_value shared) },
}

impl<D: Disk, B: Naming<D>> Named<D, B> {
    pub fn new(shared: Arc<Shared<D>, Global>) -> Named<D, B>
        requires { IsNamed B.shared (arc_value shared) }
    {
        Named {
            shared,
            of: PhantomData,
        }
    }

    pub fn get(&self) -> &Shared<D>
        ensures { IsNamed B.shared result.now }
    {
        &self.shared
    }

    /// The same locks once more, for another job.
    pub fn again(&self) -> Result<Named<D, B>, AllocError> {
        let shared = Arc::try_clone(&self.shared)?;
        Ok(Named {
            shared,
            of: PhantomData,
        })
    }

    /// The locks themselves, where nobody else has them.
    pub fn take(self) -> Result<Shared<D>, Named<D, B>>
        ensures { IfOk result (IsNamed B.shared) }
    {
        let Named { shared, of: _ } = self;
        match Arc::try_unwrap(shared) {
            Ok(shared) => Ok(shared),
            Err(shared) => Err(Named {
                shared,
                of: PhantomData,
            }),
        }
    }
}
