use crate::name::Name;

/// Who holds a record: the member, the moment in milliseconds at which its acquisition lock ends, and
/// how often the record was delivered, this time with them.
#[derive(Clone, Copy)]
pub struct Hold {
    pub member: Name,
    pub end: u64,
    pub count: u16,
}

/// Consecutive offsets, `first` and `last` with them, that a fetch acquired with one delivery count.
#[derive(Clone, Copy)]
pub struct Grant {
    pub first: u64,
    pub last: u64,
    pub count: u16,
}
