ghost use Rattle.std.specs.Prelude.{◌≡◌};

/// What is stored of a record: KIP-932's states of a record that nobody holds.
#[derive(Clone, Copy, Debug)]
pub enum RowState {
    /// It may be acquired.
    Available,
    /// A consumer has accepted it.
    Acknowledged,
    /// It was rejected, is a gap, or was released at the delivery limit.
    Archived,
}

/// What is stored at an offset: the state, and how often the record was delivered.
#[derive(Clone, Copy)]
pub struct Row {
    pub state: RowState,
    pub count: u16,
}

impl RowState {
    ghost use Rattle.share_model.specs.Rows.{state_number, state_of};

    /// The number of the state in messages and on disks: 0, 2 or 4.
    pub fn number(self) -> u8
        ensures { result ≡ state_number self }
    {
        match self {
            RowState::Available => 0,
            RowState::Acknowledged => 2,
            RowState::Archived => 4,
        }
    }

    /// The state with this number. `None` where there is none.
    pub fn from_number(number: u8) -> Option<RowState>
        ensures { result ≡ state_of number }
    {
        match number {
            0 => Some(RowState::Available),
            2 => Some(RowState::Acknowledged),
            4 => Some(RowState::Archived),
            _ => None,
        }
    }
}
