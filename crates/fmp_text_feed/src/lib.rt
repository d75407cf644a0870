//! The events of a text that comes in pieces.
//!
//! Contracts see a feed as the bytes that were not read yet, how many lines and events were taken off before them, how many
//! bytes were taken in, whether bytes past the limit were dropped, whether the text has ended, and its fault. What a call
//! gives is said by what is ahead of the feed: the events and the fault that follow, for any bytes that are still to come.
//! So it does not matter how a text is cut: the events are those of its lines in order, up to the first fault.
//!
//! No byte is searched twice for a line's end, and no more bytes are moved than were used. Only `new` and `push` allocate,
//! and in `push` memory can be wanting only where a piece and twice the unread rest are more than a new feed has room for.
#![tactic(auto)]

mod feed;
mod laws;
mod scan;

pub use feed::EventFeed;
pub use fmp_text::{MOST_BYTES, MOST_EVENTS, TextFault, TextKind};
pub use laws::{cuts_do_not_matter, pieces_give_their_text};
