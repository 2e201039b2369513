ghost use Rattle.std.specs.Prelude.{◌≡◌, ◌≢◌, ◌⊎◌, ◌↔◌, ◌+◌, ◌≤◌, [], List, ℕ, length, Some, None, Err, IsTrue, IfOk, IsOk, OnOk, OnErr};
ghost use Rattle.std.specs.declared.option.Option.{Option};
ghost use Rattle.edge_io.specs.Armed.{ArmsAlone, RunsOn, StarvesUnarmed};
ghost use Rattle.edge_io.specs.Causes.{HasCause};
ghost use Rattle.edge_io.specs.Counting.{DoesCalls, MakesCalls, MakesUpTo};
ghost use Rattle.edge_io.specs.Disk.{IsTold};
ghost use Rattle.edge_io.specs.Moments.{Elapses, LeavesOnly};
ghost use Rattle.gate_journal.specs.Frames.{IsBeforeOrAfter, IsWithPending, IsFrame, blocks, frame_in, framed};
ghost use Rattle.gate_journal.specs.Reading.{ExtendsWithin, HasFrameAt, ReadsOnly};
ghost use Rattle.share_model.specs.Rooms.{Appends, Reserves};

use crate::buffer::set_frame;
use crate::reading::append_frame;
use crate::writer::{Mending, Writer};
use edge_io::{Disk, Failed, FaultMode};
use share_model::{BatchRead, Room, StoreFault};
use std::marker::Model;

const MAX_END: u64 = 1 << 62;

const MAX_FRAME: u32 = 33554432;

/// A list of frames on a disk, which grows by one frame at a time and survives a crash at any moment.
///
/// An append makes two writes, each with a sync behind it. Where it fails, the frame is *pending*: a crash may leave it
/// or not. The next append first mends the disk, so that a pending frame never lands once it has answered Ok.
#[derive(Drop)]
pub struct Journal<D: Disk> {
    writer: Writer<D>,
}

impl<D: Disk> Model for Journal<D> {
    ghost use Rattle.gate_journal.specs.declared.writer.Writer.{Writer};
    ghost use Rattle.gate_journal.specs.Journals.{HasRoom};

    ghost Value = { Writer D };

    ghost view = { λ j. j.writer };

    ghost invariant = { λ j. HasRoom D.seen j.writer };
}

impl<D: Disk> Journal<D> {
    ghost use Rattle.gate_journal.specs.Clearing.{IsAsBefore, IsBare, IsLone, IsPartlyCleared, IsTouched, MayClear};
    ghost use Rattle.gate_journal.specs.Frames.{IsShut, StandsFor};
    ghost use Rattle.gate_journal.specs.Groups.{AddsAll, IsAllOrNone, IsGroup, StandsAll};
    ghost use Rattle.gate_journal.specs.Journals.{HasRoom, IsAtRest, IsShaped, Stands, Adds, RefusesFull, SetsBuffer, calls_to_mend};

    // A journal of frames that were read from the disk.
    pub(crate) fn opened(disk: D, end: u64, count: u64) -> Self
        requires { HasRoom D.seen (record { disk = disk; end = end; count = count; mending = Mending.Nothing }) }
        ensures { result ≡ record { disk = disk; end = end; count = count; mending = Mending.Nothing } }
    {
        Journal {
            writer: Writer {
                disk,
                end,
                count,
                mending: Mending::Nothing,
            },
        }
    }

    /// Adds a frame, and answers its number, from 0 on. It takes no memory.
    ///
    /// `buffer` has the frame, of 1 to 33554432 bytes, behind four bytes of any value and before one. For every
    /// answer but `Full` the five are set to the frame's length and a closed gate, so that one device write carries
    /// all.
    ///
    /// An append that finds nothing to mend makes four device calls: a write, a sync, a write of one byte, a sync.
    /// Mending makes two or four more before them. The first call that fails is the last.
    ///
    /// At `Device` the frame is pending, or the one that was pending still is; the buffer still has the frame, so the
    /// same append can be tried again. At `Full` the frame would end past 2^62 bytes, and nothing is changed, the
    /// buffer included; `end` is the number of bytes up to the last gate and with it.
    pub fn append(&mut self, buffer: &mut [u8]) -> Result<u64, StoreFault>
        requires { IsFrame (frame_in buffer.old) }

        // At Ok the frame stands behind the others, and no write is pending.
        ensures ok { OnOk result (Adds D.seen (frame_in buffer.old) self.old self.new) }
        ensures number { IfOk result (λ n. n ≡ self.old.count) }

        // At Err the frames are the same. The pending write is the one from before, or this one.
        ensures failed { OnErr result ((frames : List (List ℕ)) (pending : Option (List ℕ)) → Stands D.seen self.old frames pending →
            Stands D.seen self.new frames pending ⊎ Stands D.seen self.new frames (Some (frame_in buffer.old))) }
        ensures full { RefusesFull self.old self.new buffer.old buffer.new result }

        // At each moment since the call began a crash leaves the frames, with or without the pending one, or with
        // this one.
        ensures any_moment { (frames : List (List ℕ)) (pending : Option (List ℕ)) → Stands D.seen self.old frames pending →
            LeavesOnly D.seen self.old.disk self.new.disk (λ c. IsWithPending frames pending c ⊎ IsBeforeOrAfter frames (frame_in buffer.old) c) }

        // The calls that mend, and four more.
        ensures disk { MakesCalls D.seen (calls_to_mend self.old.mending + 4)
            self.old.disk self.new.disk StoreFault.Device result }
        ensures buffer { SetsBuffer buffer.old buffer.new result }
    {
        let len = buffer.len() as u64;
        let end = self.writer.end;
        if end > MAX_END || len > MAX_END - end {
            return Err(StoreFault::Full { end });
        }
        set_frame(buffer);
        if let Err(_) = self.writer.mend() {
            return Err(StoreFault::Device);
        }
        let number = self.writer.count;
        if let Err(_) = self.writer.add(buffer, 1) {
            return Err(StoreFault::Device);
        }
        Ok(number)
    }

    /// Adds several frames at once, and answers the number of the first one, from 0 on: a crash leaves all of them
    /// or none. It takes no memory.
    ///
    /// `buffer` has so many frames, one or more, as `join_frame` lays them behind each other: each behind its length,
    /// and between two of them an open gate.
    ///
    /// It makes the calls of one append, whatever the number of frames: a write of all behind the closed gate, a sync,
    /// a write that opens this gate, a sync; and before them those that mend, two or four. The first call that fails
    /// is the last.
    ///
    /// At `Device` all of these frames are pending, or those that were pending still are. At `Full` the last frame
    /// would end past 2^62 bytes, and nothing is changed; `end` is the number of bytes up to the last gate and with
    /// it.
    pub fn append_all(&mut self, buffer: &[u8], count: u64) -> Result<u64, StoreFault>
        requires group { (group : List (List ℕ)) × IsGroup buffer.now count group }

        // At Ok the frames stand behind the others, and no write is pending.
        ensures ok { OnOk result ((group : List (List ℕ)) → IsGroup buffer.now count group → AddsAll D.seen group self.old self.new) }
        ensures number { IfOk result (λ n. n ≡ self.old.count) }

        // At Err the frames are the same. The pending write is the one from before, or this one.
        ensures failed { OnErr result ((frames pending group : List (List ℕ)) → IsGroup buffer.now count group →
            StandsAll D.seen self.old frames pending → StandsAll D.seen self.new frames pending ⊎ StandsAll D.seen self.new frames group) }
        ensures full { RefusesFull self.old self.new buffer.now buffer.now result }

        // At each moment since the call began a crash leaves the frames, with all or none of the pending ones, or with
        // all of these.
        ensures any_moment { (frames pending group : List (List ℕ)) → IsGroup buffer.now count group → StandsAll D.seen self.old frames pending →
            LeavesOnly D.seen self.old.disk self.new.disk (λ c. IsAllOrNone frames pending c ⊎ IsAllOrNone frames group c) }

        // The calls that mend, and four more.
        ensures disk { MakesCalls D.seen (calls_to_mend self.old.mending + 4)
            self.old.disk self.new.disk StoreFault.Device result }
    {
        let len = buffer.len() as u64;
        let end = self.writer.end;
        if end > MAX_END || len > MAX_END - end {
            return Err(StoreFault::Full { end });
        }
        if let Err(_) = self.writer.mend() {
            return Err(StoreFault::Device);
        }
        let number = self.writer.count;
        if let Err(_) = self.writer.add(buffer, count) {
            return Err(StoreFault::Device);
        }
        Ok(number)
    }

    /// The number of frames.
    pub fn count(&self) -> u64
        ensures count { result ≡ self.now.count }
        ensures frames { (frames : List (List ℕ)) (pending : Option (List ℕ)) → Stands D.seen self.now frames pending → result ≡ length frames }
    {
        self.writer.count
    }

    /// Closes the first gate, so that the journal has no frames, and syncs: two device calls. Where the gate is
    /// closed already and bytes may follow it, none are made. Where no byte can follow it, as in a journal that was
    /// opened without frames, that stays so, and a later call closes it again.
    ///
    /// At an `Err` the journal and its frames are as before, but that a crash may leave the first gate closed; then
    /// nothing is to be appended before `close_first` or `clear` has answered Ok.
    pub fn close_first(&mut self) -> Result<(), Failed>
        ensures ok { OnOk result (MayClear D.seen self.old → IsShaped D.seen self.new [] (IsShut [])) }
        ensures bare { OnOk result (IsBare self.new ⊎ (IsLone self.old × IsAsBefore self.old self.new)) }
        ensures lone { IsLone self.old → IsLone self.new }
        ensures again { IsBare self.old → IsOk result × (self.new ≡ self.old) }
        ensures calls { OnOk result ((IsBare self.old → ⊥) → DoesCalls D.seen 2 self.old.disk self.new.disk) }
        ensures kept { OnErr result (IsAsBefore self.old self.new) }
        ensures images { (c : List ℕ) → (D.seen self.new.disk).image c → IsTouched self.old (D.seen self.old.disk).image c }
        ensures any_moment { LeavesOnly D.seen self.old.disk self.new.disk (IsTouched self.old (D.seen self.old.disk).image) }
        ensures runs { RunsOn D.seen self.old.disk self.new.disk }
        ensures memory { OnErr result (StarvesUnarmed D.seen self.old.disk self.new.disk) }
        ensures cause { HasCause (D.seen self.old.disk).faults (D.seen self.new.disk).faults result }
    {
        self.writer.close_first()
    }

    /// Takes all frames away: closes the first gate as `close_first` does, and cuts off what follows it, with a sync
    /// behind each: two or four device calls. At Ok the journal has no frames and can be written anew.
    pub fn clear(&mut self) -> Result<(), Failed>
        ensures ok { OnOk result (MayClear D.seen self.old → IsAtRest D.seen self.new []) }
        ensures lone { IsLone self.old → IsLone self.new }
        ensures calls { OnOk result ((IsBare self.old → DoesCalls D.seen 2 self.old.disk self.new.disk)
            × ((IsBare self.old → ⊥) → DoesCalls D.seen 4 self.old.disk self.new.disk)) }
        ensures failed { OnErr result (MayClear D.seen self.old → IsPartlyCleared D.seen self.old self.new) }
        ensures any_moment { MayClear D.seen self.old →
            LeavesOnly D.seen self.old.disk self.new.disk (λ c. IsTouched self.old (D.seen self.old.disk).image c ⊎ StandsFor c []) }
        ensures runs { RunsOn D.seen self.old.disk self.new.disk }
        ensures memory { OnErr result (StarvesUnarmed D.seen self.old.disk self.new.disk) }
        ensures cause { HasCause (D.seen self.old.disk).faults (D.seen self.new.disk).faults result }
    {
        self.writer.clear()
    }

    /// The place of the last gate, which will be that of the next frame.
    pub fn last_gate(&self) -> u64
        ensures end { result + 1 ≡ self.now.end }
        ensures place { (frames : List (List ℕ)) (pending : Option (List ℕ)) → Stands D.seen self.now frames pending → result ≡ length (blocks frames) }
    {
        self.writer.end - 1
    }

    /// Appends the frame whose gate stands at `place` to a room. It makes two device calls, which read the length and
    /// the frame; the first that fails is the last.
    ///
    /// It finds no memory only where the spare number of the room is below the frame's length. After a refusal the
    /// room has the bytes that it had, and its spare number is no smaller. The frames and what is pending stay in any
    /// case.
    pub fn read_frame(&mut self, place: u64, out: &mut Room) -> Result<(), BatchRead>
        requires { (frame : List ℕ) × HasFrameAt D.seen self.old place frame }

        // At Ok that frame stands behind the bytes of the room, where the disk tells its content.
        ensures ok { OnOk result (IsTold (D.seen self.old.disk).content → (frame : List ℕ) → HasFrameAt D.seen self.old place frame →
            Appends out.old out.new frame) }
        ensures err { OnErr result (Reserves out.old out.new 0) }
        ensures spared { IsTold (D.seen self.old.disk).content → (frame : List ℕ) → HasFrameAt D.seen self.old place frame →
            length frame ≤ out.old.spare → result ≢ Err BatchRead.NoMemory }

        // Nothing is changed.
        ensures only { ReadsOnly D.seen self.old self.new }
        ensures disk { MakesUpTo D.seen 2 self.old.disk self.new.disk (result ≡ Err BatchRead.Device) }
    {
        self.read_frame_within(place, MAX_FRAME, out)
    }

    /// The same of a frame that is known to have at most so many bytes: no more is appended, so also where the disk
    /// doesn't tell its content, a room with a spare number of so many is enough.
    pub fn read_frame_within(
        &mut self,
        place: u64,
        most: u32,
        out: &mut Room,
    ) -> Result<(), BatchRead>
        requires { (frame : List ℕ) × HasFrameAt D.seen self.old place frame × (length frame ≤ most) }

        // At Ok that frame stands behind the bytes of the room, where the disk tells its content.
        ensures ok { OnOk result (IsTold (D.seen self.old.disk).content → (frame : List ℕ) → HasFrameAt D.seen self.old place frame →
            length frame ≤ most → Appends out.old out.new frame) }
        ensures extends { OnOk result (ExtendsWithin most out.old.bytes out.new.bytes) }
        ensures less { OnOk result (out.old.spare ≤ out.new.spare + most) }
        ensures err { OnErr result (Reserves out.old out.new 0) }
        ensures spared { IsTold (D.seen self.old.disk).content → (frame : List ℕ) → HasFrameAt D.seen self.old place frame →
            length frame ≤ out.old.spare → result ≢ Err BatchRead.NoMemory }
        ensures roomy { most ≤ out.old.spare → result ≢ Err BatchRead.NoMemory }

        // Nothing is changed.
        ensures only { ReadsOnly D.seen self.old self.new }
        ensures disk { MakesUpTo D.seen 2 self.old.disk self.new.disk (result ≡ Err BatchRead.Device) }
    {
        let space = self.writer.end - place - 6; // from the frame to the last gate
        let most = u64::from(most).min(space) as usize;
        let mut bytes = out.take();
        let read = append_frame(&mut self.writer.disk, place, most, &mut bytes);
        *out = Room::of(bytes);
        read
    }

    /// Whether a call of its disk has failed for want of memory.
    pub fn starved(&self) -> bool
        ensures { result ≡ (D.seen self.now.disk).starved }
    {
        self.writer.disk.starved()
    }

    /// The count of faults of its disk.
    pub fn faults(&self) -> u64
        ensures { result ≡ (D.seen self.now.disk).faults }
    {
        self.writer.disk.faults()
    }

    /// Whether nothing is left to mend. Then no write is pending.
    pub fn is_at_rest(&self) -> bool
        ensures exact { IsTrue result ↔ (self.now.mending ≡ Mending.Nothing) }
        ensures rests { IsTrue result → (frames : List (List ℕ)) (pending : Option (List ℕ)) → Stands D.seen self.now frames pending →
            (pending ≡ None) × IsAtRest D.seen self.now frames }
    {
        matches!(self.writer.mending, Mending::Nothing)
    }

    /// Arms a fault of its disk, and changes nothing else.
    pub fn arm(&mut self, after: u64, mode: FaultMode)
        ensures disk { ArmsAlone D.seen after mode self.old.disk self.new.disk }
        ensures time { Elapses (D.seen self.old.disk) (D.seen self.new.disk) }
        ensures rest { self.new ≡ record self.old { disk = self.new.disk } }
        ensures stands { (frames : List (List ℕ)) (pending : Option (List ℕ)) → Stands D.seen self.old frames pending →
            Stands D.seen self.new frames pending }
    {
        self.writer.disk.arm(after, mode);
    }

    /// Gives the disk back.
    pub fn into_disk(self) -> D
        ensures { result ≡ self.disk }
    {
        self.writer.disk
    }
}
