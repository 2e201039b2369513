use crate::fault::SystemFault;
use edge_io::CloseReason;
use std::net::SocketAddr;

/// What is told of the sockets of a server as it goes, for a program to print. Nothing that is served depends on it.
pub trait SocketNotices: Sized {
    /// The socket that listens is bound, and has this address.
    fn listening(&self, at: SocketAddr);

    /// A peer couldn't be accepted. That passes, and it is tried again.
    fn waiting(&self, fault: SystemFault);

    /// A call on the socket of this peer was not done.
    fn failed(&self, peer: SocketAddr, fault: SystemFault);

    /// No byte came from this peer for as long as one is waited for, and its socket is closed.
    fn idle(&self, peer: SocketAddr);

    /// The broker closes this peer's socket, which the peer hadn't ended and on which no call has failed: for this
    /// reason, or unserved where there is none.
    fn closed(&self, peer: SocketAddr, reason: Option<CloseReason>);

    /// What a link that was accepted tells by. The link may go to another thread.
    fn for_link(&self) -> Self;

    /// The link that tells by this one is read for the first time, or is closed unread.
    fn begun(&self);

    /// What another clock tells by. It may go to another thread.
    fn for_clock(&self) -> Self;

    /// A clock pauses, as it does each second or so.
    fn pausing(&self);
}

/// Nothing is told.
#[derive(Clone, Copy)]
pub struct NoNotices;

impl SocketNotices for NoNotices {
    fn listening(&self, _at: SocketAddr) {}

    fn waiting(&self, _fault: SystemFault) {}

    fn failed(&self, _peer: SocketAddr, _fault: SystemFault) {}

    fn idle(&self, _peer: SocketAddr) {}

    fn closed(&self, _peer: SocketAddr, _reason: Option<CloseReason>) {}

    fn for_link(&self) -> NoNotices {
        NoNotices
    }

    fn begun(&self) {}

    fn for_clock(&self) -> NoNotices {
        NoNotices
    }

    fn pausing(&self) {}
}
