ghost use Rattle.std.specs.Prelude.{◌≡◌, ◌≤◌, ℕ, IfErr};
ghost use Rattle.edge_io.specs.Causes.{HasCause, Rose};

use std::thread;
use std::thread::Threads;

/// What jobs are started by. [`start`] starts one.
///
/// The type of the job is a parameter of that function and not of a method here: in a method's implementation nothing
/// is known of the job but the method's own bounds, and these don't show that what the job holds may go to another
/// thread.
pub trait Spawner {
    type Rt: Threads;

    /// How many jobs were refused. The count stays at `u64::MAX` once it is there.
    ghost faults: { Self → ℕ };

    /// What a thread is started by. None: each job is refused.
    fn threads(&self) -> Option<&Self::Rt>;

    /// Counts a job that was refused.
    fn refuse(&mut self)
        ensures later { faults self.old ≤ faults self.new }
        ensures rises { Rose (faults self.old) (faults self.new) };
}

// Starts a job, whose thread is left to itself.
fn launch<P: Spawner, J: FnOnce() + Send + 'static>(spawner: &P, job: J) -> Result<(), J>
    requires { J.pre job }
    ensures { IfErr result (λ j. j ≡ job) }
{
    let Some(rt) = spawner.threads() else {
        return Err(job);
    };
    match thread::spawn(rt, job) {
        Ok(child) => {
            drop(child);
            Ok(())
        }
        Err(refused) => Err(refused.value),
    }
}

/// Starts a job beside the caller, which doesn't wait for it. One that is refused comes back as it was.
pub fn start<P: Spawner, J: FnOnce() + Send + 'static>(spawner: &mut P, job: J) -> Result<(), J>
    requires { J.pre job }
    ensures back { IfErr result (λ j. j ≡ job) }
    ensures cause { HasCause (P.faults spawner.old) (P.faults spawner.new) result }
{
    match launch(&*spawner, job) {
        Ok(()) => Ok(()),
        Err(job) => {
            spawner.refuse();
            Err(job)
        }
    }
}
