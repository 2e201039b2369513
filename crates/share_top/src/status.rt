ghost use Rattle.std.specs.Prelude.{◌≡◌};
ghost use Rattle.share_top.specs.Statuses.{status_number};

/// The status with which the program ends.
#[derive(Clone, Copy)]
pub enum Status {
    /// All is done.
    Done = 0,
    /// The words are no command.
    Usage = 2,
    /// The input isn't a script. The events before the malformed line are done, and its place is told.
    Malformed = 3,
    /// The input failed. The events whose lines it gave whole are done.
    ReadFault = 4,
    /// The output failed.
    WriteFault = 5,
    /// The content of a disk isn't store text. Its name and the place of the fault are told.
    Damaged = 6,
    /// A disk or the bay failed in an opening or in a power loss.
    Device = 7,
    /// No memory was found.
    NoMemory = 8,
    /// The listener failed.
    Listener = 9,
    /// A job was refused: no thread could be started for it.
    Spawner = 10,
    /// The broker gave no link, or a link was lost before the last acknowledgement was answered.
    Lost = 11,
    /// A reply of the broker has an error code, which is told.
    Refused = 12,
    /// A reply of the broker can't be, and the place is told.
    Strange = 13,
}

impl Status {
    /// The number that the operating system is told.
    pub fn number(self) -> u8
        ensures { result ≡ status_number self }
    {
        self as u8
    }
}
