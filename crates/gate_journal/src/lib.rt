//! A journal on a disk that may crash at any moment: a list of frames that grows by one frame at a time.
//!
//! Journal text is made of *gates*. A gate is one byte: open where it is 1, and closed otherwise. Behind an open gate
//! stand the length of a frame, as a big-endian u32, and the frame, and then the next gate; the last gate is closed.
//! So an append writes the frame with its length and a closed gate behind the last gate, syncs, opens the gate, and
//! syncs again. Whatever of these calls a crash cuts short, the content stands for the frames before, or for those
//! with the new one. No checksum is trusted for that. Several frames are written in the same way, with the gates between
//! them open: the one closed gate before them is opened for all.
#![tactic(auto)]

mod buffer;
mod clearing;
mod device;
mod each;
mod groups;
mod journal;
mod opening;
mod pieces;
mod reading;
mod repair;
mod seen;
mod text;
mod visit;
mod writer;

pub use buffer::{buffer_of, join_frame};
pub use each::start_each;
pub use groups::a_pending_frame_is_a_group_of_one;
pub use journal::Journal;
pub use opening::{StartFault, start};
pub use seen::SeenFrames;
pub use text::journal_text_is_read_one_way;
pub use visit::FrameVisit;
