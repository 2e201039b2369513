// The calls that an armed fault may break, over a history.
ghost use Rattle.std.specs.Prelude.{◌≡◌, ◌⊎◌, ◌≤◌, ◌/◌, Err, length, take, true, false, IfErr, OnOk, OnErr, IsErr};
ghost use Rattle.edge_io.specs.declared.fault.FaultMode.TheVariants.{Once};
ghost use Rattle.edge_io.specs.Armed.{breaks, next_armed, spent, tears};
ghost use Rattle.edge_mem.specs.Events.{Wrote, CutTo};
ghost use Rattle.edge_mem.specs.Past.{content, with_event, broken_by, broken_write, failed_write};
ghost use Rattle.edge_mem.specs.Refusals.{Leaves};
ghost use Rattle.edge_mem.specs.declared.faulty.Refusal.TheVariants.{Broken, NoMemory};

use crate::history::History;
use edge_io::{Armed, FaultMode};

/// Why a call was not done.
#[derive(Clone, Copy, PartialEq, Eq)]
pub enum Refusal {
    /// The armed fault broke it.
    Broken,
    /// It found no memory.
    NoMemory,
}

// What is left of a fault that has broken a call.
fn after_break(mode: FaultMode) -> Armed
    ensures { result ≡ spent mode }
{
    match mode {
        FaultMode::Once | FaultMode::Torn => Armed::Nothing,
        FaultMode::Dead => Armed::Broken,
    }
}

// Counts a call, and answers how it is broken.
pub fn count_call(armed: &mut Armed) -> Option<FaultMode>
    ensures next { armed.new ≡ next_armed armed.old }
    ensures broken { result ≡ broken_by armed.old }
{
    match *armed {
        Armed::Nothing => None,
        Armed::After { passes, mode } => {
            if passes == 0 {
                *armed = after_break(mode);
                return Some(mode);
            }
            *armed = Armed::After {
                passes: passes - 1,
                mode,
            };
            None
        }
        Armed::Broken => Some(FaultMode::Once),
    }
}

// Writes the first half, and answers why the whole was not written.
fn write_half(history: &mut History, place: usize, bytes: &[u8]) -> Refusal
    requires { place ≤ length (content history.old) }
    ensures { Leaves result (with_event history.old (Wrote place (take (length bytes.now / 2) bytes.now))) history.old history.new }
{
    let (half, _) = bytes.split_at(bytes.len() / 2);
    match history.write(place, half) {
        Ok(()) => Refusal::Broken,
        Err(_) => Refusal::NoMemory,
    }
}

// What a broken write leaves, and why the whole was not written.
fn tear(history: &mut History, mode: FaultMode, place: usize, bytes: &[u8]) -> Refusal
    requires { place ≤ length (content history.old) }
    ensures left { Leaves result (broken_write mode place bytes.now history.old) history.old history.new }
    ensures memory { mode ≡ Once → result ≡ Broken }
{
    match mode {
        FaultMode::Once => Refusal::Broken,
        FaultMode::Torn => write_half(history, place, bytes),
        FaultMode::Dead => write_half(history, place, bytes),
    }
}

// Writes.
pub fn write(
    history: &mut History,
    armed: &mut Armed,
    place: usize,
    bytes: &[u8],
) -> Result<(), Refusal>
    requires { place ≤ length (content history.old) }
    ensures done { OnOk result (history.new ≡ with_event history.old (Wrote place bytes.now)) }
    ensures left { IfErr result (λ e. Leaves e (failed_write (broken_by armed.old) place bytes.now history.old) history.old history.new) }
    ensures armed { armed.new ≡ next_armed armed.old }
    ensures broken { breaks armed.old ≡ true → IsErr result }
    ensures memory { breaks armed.old ≡ true → tears armed.old ≡ false → result ≡ Err Broken }
    ensures only { IfErr result (λ e. (breaks armed.old ≡ true) ⊎ (e ≡ NoMemory)) }
{
    match count_call(armed) {
        None => match history.write(place, bytes) {
            Ok(()) => Ok(()),
            Err(_) => Err(Refusal::NoMemory),
        },
        Some(mode) => Err(tear(history, mode, place, bytes)),
    }
}

// Cuts.
pub fn cut(history: &mut History, armed: &mut Armed, to: usize) -> Result<(), Refusal>
    requires { to ≤ length (content history.old) }
    ensures done { OnOk result (history.new ≡ with_event history.old (CutTo to)) }
    ensures err { OnErr result (history.new ≡ history.old) }
    ensures armed { armed.new ≡ next_armed armed.old }
    ensures broken { breaks armed.old ≡ true → result ≡ Err Broken }
    ensures only { IfErr result (λ e. (breaks armed.old ≡ true) ⊎ (e ≡ NoMemory)) }
{
    match count_call(armed) {
        None => match history.cut(to) {
            Ok(()) => Ok(()),
            Err(_) => Err(Refusal::NoMemory),
        },
        Some(_) => Err(Refusal::Broken),
    }
}
