//! Texts that are written: replies for a site, and moments, a second since 1970 on the calendar and the clock of UTC, as
//! a mailbox and a header show them.
//!
//! A conversation has `write_reply` put a reply into its buffer, the log shows its `reply_code`, and a record's head has
//! moments by `Stamp::of_unix` and two texts; each equals its definition. It never knows which reply is due or where it
//! is sent, and which moment it is now.
#![tactic(auto)]

mod reply;
mod stamp;
mod writing;

pub use reply::{REPLY_LIMIT, reply_code, write_reply};
pub use stamp::{Stamp, stamp_5322, stamp_ctime};
